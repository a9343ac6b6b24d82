// nx build: a list's tables, written to a file.
ghost use Rattle.std.specs.Prelude.{◌≤◌};

use crate::failure::{self, Failure};
use crate::list::{List, Room};
use crate::parse::{self, BadHex};
use crate::text::Shown;
use crate::{files, output};
use std::fmt;
use std::fmt::{Display, Formatter, Write};

// The base where none is given.
pub const BASE: u32 = 0x20000000;

// A base is a multiple of this.
const STEP: u32 = 4096;

// The last base from which 65,536 bytes reach no further than the last address.
const LAST: u32 = 0xffff0000;

// Why a word says no base.
#[derive(Clone, Copy)]
pub enum BadBase {
    Uneven,
    Hex(BadHex),
    NoRoom,
}

impl Display for BadBase {
    fn fmt<W: Write>(&self, f: &mut Formatter<W>) -> fmt::Result {
        f.write_str(match self {
            BadBase::Uneven => "is no multiple of 4096",
            BadBase::Hex(BadHex::NotHex) => "is not a hex number",
            BadBase::Hex(BadHex::TooLarge) => "is too large",
            BadBase::NoRoom => "leaves no room for 65536 bytes",
        })
    }
}

// Says why a word is no base.
fn refused(rt: HostRuntime, word: &[u8], why: BadBase) -> Failure {
    failure::say(rt, format_args!("nx: base {} {why}\n", Shown(word)));
    Failure::Misuse
}

// The base that a word says.
pub(crate) fn base_of(rt: HostRuntime, word: &[u8]) -> Result<u32, Failure> {
    parse::hex(word).map_err(|e| refused(rt, word, BadBase::Hex(e)))
}

// How many first-level words point at a table of a kind: 1 coarse, 3 fine.
fn tables(image: &[u8], kind: u32) -> usize
    ensures { result ≤ 16 }
{
    let mut n = 0;
    for i in 0..16 {
        if wire::word_at(image, 4 * i) % 4 == kind {
            n += 1;
        }
    }
    n
}

// What was built: from how many mappings, into which file.
#[derive(Clone, Copy)]
struct Summary<'a> {
    path: &'a [u8],
    mappings: usize,
    image: &'a [u8],
    base: u32,
}

impl Display for Summary<'_> {
    fn fmt<W: Write>(&self, f: &mut Formatter<W>) -> fmt::Result {
        let coarse = tables(self.image, 1);
        let fine = tables(self.image, 3);
        let all = coarse.saturating_add(fine).saturating_add(1);
        write!(
            f,
            "{}: {} mappings, {all} tables ",
            Shown(self.path),
            self.mappings
        )?;
        write!(f, "(1 first-level, {coarse} coarse, {fine} fine), ")?;
        writeln!(f, "{} bytes at {:08X}", self.image.len(), self.base)
    }
}

// A list's tables built and written.
fn built(rt: HostRuntime, path: &[u8], list: List, file: &[u8], base: u32) -> Result<(), Failure> {
    let mut memory = io::large_buffer();
    let image = list.tables(rt, path, base, &mut memory)?;
    files::replace(rt, file, image)?;
    let mappings = list.count();
    files::told(
        rt,
        output::print(
            rt,
            Summary {
                path: file,
                mappings,
                image,
                base,
            },
        ),
    )
}

// The base that a word says, at which tables may be built; the usual one where there is none.
fn asked(rt: HostRuntime, word: &[u8]) -> Result<u32, Failure> {
    if word.is_empty() {
        return Ok(BASE);
    }
    let base = base_of(rt, word)?;
    if base % STEP != 0 {
        return Err(refused(rt, word, BadBase::Uneven));
    }
    if base > LAST {
        return Err(refused(rt, word, BadBase::NoRoom));
    }
    Ok(base)
}

// nx build LIST IMAGE [BASE].
pub(crate) fn run(rt: HostRuntime, path: &[u8], file: &[u8], word: &[u8]) -> Result<(), Failure> {
    let base = asked(rt, word)?;
    let mut room = Room::new();
    let list = room.load(rt, path)?;
    built(rt, path, list, file, base)
}
