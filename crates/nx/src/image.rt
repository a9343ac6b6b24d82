// nx check: an image that was built elsewhere, read and accepted or refused.
use crate::failure::Failure;
use crate::files::{self, Name};
use crate::refusal::Refusal;
use crate::{build, output};
use page::PhysicalAddress;

// The most bytes of an image, and one more.
pub const ROOM: usize = memory::LONGEST + 1;

// An image that was read: the file's path, its bytes, and the base at which it is to stand.
#[derive(Clone, Copy)]
pub struct Image<'a> {
    pub path: &'a [u8],
    pub bytes: &'a [u8],
    pub base: u32,
}

impl<'a> Image<'a> {
    // An image read from its file, to stand at a base.
    pub fn at_base(
        rt: HostRuntime,
        path: &'a [u8],
        base: u32,
        room: &'a mut [u8],
    ) -> Result<Image<'a>, Failure> {
        let bytes = files::read(rt, path, room)?;
        Ok(Image { path, bytes, base })
    }

    // An image read from its file, to stand at the base that a word says.
    pub fn load(
        rt: HostRuntime,
        path: &'a [u8],
        word: &[u8],
        room: &'a mut [u8],
    ) -> Result<Image<'a>, Failure> {
        Image::at_base(rt, path, build::base_of(rt, word)?, room)
    }

    // A word by its place.
    pub fn word(self, k: u32) -> u32 {
        wire::word_at(self.bytes, 4 * k as usize)
    }

    // The word at an address.
    pub fn word_at(self, at: u32) -> u32 {
        wire::word_at(self.bytes, at.wrapping_sub(self.base) as usize)
    }

    // Accepts an image on standard output, or says there why it is refused.
    pub fn judge(self, rt: HostRuntime) -> Result<(), Failure> {
        let Image { path, bytes, base } = self;
        match audit::check(bytes, PhysicalAddress(base)) {
            Ok(pages) => {
                let name = Name(path);
                let len = bytes.len();
                let line = format_args!(
                    "{name}: accepted, {pages} pages, {len} bytes at {base:08X}\n"
                );
                files::told(rt, output::print(rt, line))
            }
            Err(why) => {
                files::told(rt, output::print(rt, Refusal { image: self, why }))?;
                Err(Failure::Wrong)
            }
        }
    }
}

// nx check IMAGE BASE.
pub(crate) fn run(rt: HostRuntime, path: &[u8], word: &[u8]) -> Result<(), Failure> {
    let mut room = [0u8; ROOM];
    Image::load(rt, path, word, &mut room)?.judge(rt)
}
