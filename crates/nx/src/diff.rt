// nx diff: a new image compared with the signed one, the mappings and the words that differ.
use crate::changes::Changes;
use crate::failure::{self, Failure};
use crate::files::{self, Name};
use crate::image::{self, Image};
use crate::mappings::Mappings;
use crate::refusal::Refusal;
use crate::{build, output};
use audit::ImageError;
use parting::Parting;
use std::fmt::{Display, Formatter, Write};
use std::{fmt, io};

// Where two images part, how many words differ, and which is the longer.
#[derive(Clone, Copy)]
struct Head<'a> {
    new: Image<'a>,
    signed: Image<'a>,
    parting: Parting,
}

// How many more bytes an image has than another, where it has more.
fn longer<W: Write>(f: &mut Formatter<W>, image: Image, other: Image) -> fmt::Result {
    let from = other.bytes.len();
    match image.bytes.len().checked_sub(from) {
        None | Some(0) => Ok(()),
        Some(more) => {
            writeln!(
                f,
                "  {} has {more} bytes more, from offset {from:04X} on",
                Name(image.path)
            )
        }
    }
}

impl Display for Head<'_> {
    fn fmt<W: Write>(&self, f: &mut Formatter<W>) -> fmt::Result {
        let Head {
            new,
            signed,
            parting,
        } = *self;
        let all = parting::common(new.bytes.len(), signed.bytes.len());
        write!(f, "{} parts from {} ", Name(new.path), Name(signed.path))?;
        writeln!(f, "at offset {:04X}", parting.start)?;
        writeln!(f, "  words that differ: {} of {all}", parting.words)?;
        longer(f, new, signed)?;
        longer(f, signed, new)
    }
}

// Says why an image is refused, where its length is no multiple of 4, as that of an image that was cut to its room.
fn refused(rt: HostRuntime, image: Image) -> io::Result<()> {
    if image.bytes.len() % 4 == 0 {
        return Ok(());
    }
    let image = Image { base: 0, ..image };
    output::print(
        rt,
        Refusal {
            image,
            why: ImageError::BadMemory,
        },
    )
}

// Tells how two images part, and what maps otherwise in images that are both accepted.
fn parted(rt: HostRuntime, new: Image, signed: Image, parting: Parting) -> Result<(), Failure> {
    let head = output::print(
        rt,
        Head {
            new,
            signed,
            parting,
        },
    );
    let new_good = new.judge(rt).is_ok();
    let signed_good = signed.judge(rt).is_ok();
    let mappings = if new_good && signed_good {
        (Mappings { new, signed }).print(rt)
    } else {
        Ok(())
    };
    let changes = Changes {
        new,
        new_good,
        signed,
        signed_good,
    };
    files::told(rt, head.and(mappings).and(changes.print(rt)))?;
    Err(Failure::Wrong)
}

// Two images compared: equal ones part at the end of both.
fn compared(rt: HostRuntime, new: Image, signed: Image) -> Result<(), Failure> {
    let Some(parting) = parting::compare(new.bytes, signed.bytes) else {
        files::told(rt, refused(rt, new).and(refused(rt, signed)))?;
        return Err(Failure::Wrong);
    };
    let n = new.bytes.len();
    if parting.start == n && parting.start == signed.bytes.len() {
        let names = format_args!(
            "{} and {}: equal, {n} bytes\n",
            Name(new.path),
            Name(signed.path)
        );
        return files::told(rt, output::print(rt, names));
    }
    parted(rt, new, signed, parting)
}

// nx diff NEW SIGNED [BASE].
pub(crate) fn run(rt: HostRuntime, path: &[u8], other: &[u8], word: &[u8]) -> Result<(), Failure> {
    if files::is_input(path) && files::is_input(other) {
        failure::say(rt, "nx: only one of the two images can be standard input\n");
        return Err(Failure::Misuse);
    }
    let mut room = [0u8; image::ROOM];
    let mut second = [0u8; image::ROOM];
    let new = if word.is_empty() {
        Image::at_base(rt, path, build::BASE, &mut room)?
    } else {
        Image::load(rt, path, word, &mut room)?
    };
    let signed = Image::at_base(rt, other, new.base, &mut second)?;
    compared(rt, new, signed)
}
