// nx list: the pages of an accepted image, a line for each as a list of mappings has it.
use crate::failure::{self, Failure};
use crate::image::{self, Image};
use crate::output::{self, Output};
use crate::refusal::Refusal;
use crate::{files, list};
use audit::ListError;
use page::PhysicalAddress;
use records::Mapping;
use std::fmt::{Display, Formatter, Write};
use std::{fmt, io};

// The bytes of the most records: a tiny page for each kilobyte.
pub const RECORDS: usize = records::SIZE * 16384;

// A room with more bytes than these has none for a line.
const FULL: usize = output::SIZE - listing::WIDEST;

// The records of the pages of an image, where it is accepted.
pub(crate) fn listed<'a>(image: Image, room: &'a mut [u8]) -> Result<&'a [u8], ListError> {
    let n = audit::list(image.bytes, PhysicalAddress(image.base), room)?;
    Ok(room.get(..n).unwrap_or(b""))
}

// The records of the pages of the image of a file that stands at the base that a word says; what is wrong is said.
pub(crate) fn load<'a>(
    rt: HostRuntime,
    path: &[u8],
    word: &[u8],
    room: &'a mut [u8],
) -> Result<&'a [u8], Failure> {
    let mut memory = [0u8; image::ROOM];
    let image = Image::load(rt, path, word, &mut memory)?;
    match listed(image, room) {
        Ok(records) => Ok(records),
        Err(ListError::Image(why)) => {
            failure::say(rt, Refusal { image, why });
            Err(Failure::Wrong)
        }
        Err(ListError::TooShort(_)) => Err(Failure::Wrong),
    }
}

// A page's line.
#[derive(Clone, Copy)]
struct Line(Mapping);

impl Display for Line {
    fn fmt<W: Write>(&self, f: &mut Formatter<W>) -> fmt::Result {
        let m = self.0;
        let kind = list::kind_name(m.kind);
        let access = list::access_name(m.access);
        writeln!(f, "{kind:<7} {:06X} {:08X} {access}", m.at.0, m.to.0)
    }
}

// The lines of records, written as often as the room is full.
fn print(rt: HostRuntime, records: &[u8]) -> io::Result<()> {
    let mut out = Output::new(rt);
    for i in 0..records::count(records) {
        out.put(Line(records::mapping_at(records, i)));
        out.write_past(FULL);
    }
    out.flush()
}

// nx list IMAGE BASE.
pub(crate) fn run(rt: HostRuntime, path: &[u8], word: &[u8]) -> Result<(), Failure> {
    let mut room = [0u8; RECORDS];
    let records = load(rt, path, word, &mut room)?;
    files::told(rt, print(rt, records))
}
