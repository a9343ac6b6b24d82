// A list: read from its file, judged by the builder, its mappings in rising order; errors that name the line.
ghost use Rattle.std.specs.Prelude.{◌<◌, ◌≤◌};

use crate::failure::{self, Failure};
use crate::files::{self, Name};
use builder::BuildError;
use listing::{ReadError, Wrong};
use page::{Kind, PhysicalAddress};
use records::Mapping;
use std::fmt;
use std::fmt::{Display, Formatter, Write};

// The most bytes of a text, and one more.
pub const TEXT: usize = 262145;

// The bytes of the most records.
pub const RECORDS: usize = records::SIZE * records::MOST;

// Room for a list.
// Kept: what the program prints on any input may not change, as it would where an allocation fails.
#[derive(Drop)]
pub struct Room {
    text: [u8; TEXT],
    records: [u8; RECORDS],
    lines: [u32; records::MOST],
}

// A list that was read: its text, its records, and the number of each one's line.
#[derive(Clone, Copy)]
pub struct List<'a> {
    pub text: &'a [u8],
    pub records: &'a [u8],
    pub lines: &'a [u32],
}

// A file's name and the number of a line, where there is one, as errors begin.
#[derive(Clone, Copy)]
pub struct At<'a>(pub &'a [u8], pub u64);

impl Display for At<'_> {
    fn fmt<W: Write>(&self, f: &mut Formatter<W>) -> fmt::Result {
        let At(path, line) = *self;
        if line == 0 {
            write!(f, "{}: ", Name(path))
        } else {
            write!(f, "{}:{line}: ", Name(path))
        }
    }
}

// What is wrong with a text, in words.
#[derive(Clone, Copy)]
struct Words(Wrong);

impl Display for Words {
    fn fmt<W: Write>(&self, f: &mut Formatter<W>) -> fmt::Result {
        match self.0 {
            Wrong::UnknownKind => f.write_str("unknown kind (section, large, small or tiny)"),
            Wrong::VirtualNotHex => f.write_str("virtual address is not a hex number"),
            Wrong::VirtualTooLarge => f.write_str("virtual address is too large"),
            Wrong::VirtualUneven => f.write_str("virtual address is no multiple of the page size"),
            Wrong::PhysicalNotHex => f.write_str("physical address is not a hex number"),
            Wrong::PhysicalTooLarge => f.write_str("physical address is too large"),
            Wrong::PhysicalUneven => f.write_str(
                "physical address is no multiple of the page size",
            ),
            Wrong::UnknownAccess => f.write_str("unknown access (r or rw)"),
            Wrong::WordMissing => f.write_str(
                "a word is missing (kind, virtual, physical, access)",
            ),
            Wrong::WordTooMany => f.write_str("a word too many"),
            Wrong::LineTooLong => f.write_str("the line is longer than 200 bytes"),
            Wrong::TextTooLong => f.write_str("the text is longer than 262144 bytes"),
            Wrong::TooManyMappings => write!(f, "more than {} mappings", records::MOST),
        }
    }
}

// The name of a kind.
pub(crate) fn kind_name(k: Kind) -> &'static str {
    match k {
        Kind::Section => "section",
        Kind::Large => "large",
        Kind::Small => "small",
        Kind::Tiny => "tiny",
    }
}

// An access, as a list has it.
pub(crate) fn access_name(bits: u32) -> &'static str {
    match bits % 4 {
        0 => "-",
        1 => "-1",
        2 => "r",
        _ => "rw",
    }
}

// The bytes of a page of a kind.
pub(crate) fn size(k: Kind) -> u32
    ensures { (0 < result) × (result ≤ 1048576) }
{
    match k {
        Kind::Section => 1048576,
        Kind::Large => 65536,
        Kind::Small => 4096,
        Kind::Tiny => 1024,
    }
}

// The address behind a mapping, which ends with the virtual addresses at the latest.
pub(crate) fn end(m: Mapping) -> u32
    ensures { 0 < result }
{
    m.at.0 % page::LIMIT + size(m.kind)
}

// Whether two mappings share an address.
fn overlaps(a: Mapping, b: Mapping) -> bool {
    a.at.0 < end(b) && b.at.0 < end(a)
}

impl Room {
    pub fn new() -> Room {
        Room {
            text: [0; TEXT],
            records: [0; RECORDS],
            lines: [0; records::MOST],
        }
    }

    // A list read from its file; what is wrong is said.
    pub fn load(&mut self, rt: HostRuntime, path: &[u8]) -> Result<List<'_>, Failure> {
        let Room {
            text,
            records,
            lines,
        } = self;
        let text = files::read(rt, path, text)?;
        match listing::read(text, records, lines) {
            Ok(n) if n <= records::MOST => Ok(List {
                text,
                records: &records[..records::SIZE * n],
                lines,
            }),
            Err(ReadError::Bad(line, wrong)) => {
                failure::say(
                    rt,
                    format_args!("{}{}\n", At(path, u64::from(line)), Words(wrong)),
                );
                Err(Failure::Wrong)
            }
            _ => Err(Failure::Wrong),
        }
    }
}

impl<'a> List<'a> {
    // How many mappings there are.
    pub fn count(self) -> usize {
        records::count(self.records)
    }

    // A mapping by its place.
    pub fn mapping(self, i: usize) -> Mapping {
        records::mapping_at(self.records, i)
    }

    // The number of a mapping's line, 0 where there is none.
    fn line_of(self, i: usize) -> u32 {
        self.lines.get(i).copied().unwrap_or(0)
    }

    // What a mapping is for: the comment of its line.
    pub fn purpose(self, i: usize) -> &'a [u8] {
        let words = listing::purpose(self.text, self.line_of(i));
        self.text.get(words.from..words.to).unwrap_or(b"")
    }

    // The mapping that comes next in rising order: the first at an address or above it.
    pub fn next(self, from: u32) -> Option<usize> {
        (0..self.count())
            .filter(|i| self.mapping(*i).at.0 >= from)
            .min_by_key(|i| self.mapping(*i).at.0)
    }

    // The first mapping that overlaps another.
    fn overlapped(self, i: usize) -> usize {
        let m = self.mapping(i);
        (0..i).find(|j| overlaps(self.mapping(*j), m)).unwrap_or(i)
    }

    // Says why a list has no tables.
    fn say(self, rt: HostRuntime, path: &[u8], e: BuildError) {
        match e {
            BuildError::BadMemory => failure::say(rt, "nx: bad base\n"),
            BuildError::BadRecord(i) => {
                let at = At(path, u64::from(self.line_of(i)));
                failure::say(rt, format_args!("{at}bad mapping\n"));
            }
            BuildError::Overlap(i) => {
                let at = At(path, u64::from(self.line_of(i)));
                let other = self.line_of(self.overlapped(i));
                failure::say(rt, format_args!("{at}overlaps line {other}\n"));
            }
            BuildError::TooLong(_) => {
                let at = At(path, 0);
                failure::say(
                    rt,
                    format_args!("{at}the image is longer than 65536 bytes\n"),
                );
            }
        }
    }

    // The tables of a list in a memory at a base; what is wrong is said.
    pub fn tables<'m>(
        self,
        rt: HostRuntime,
        path: &[u8],
        base: u32,
        memory: &'m mut [u8],
    ) -> Result<&'m [u8], Failure> {
        match builder::build(self.records, PhysicalAddress(base), memory) {
            Ok(n) if n != 0 => Ok(memory.get(..n).unwrap_or(b"")),
            Ok(_) => Err(Failure::Wrong),
            Err(e) => {
                self.say(rt, path, e);
                Err(Failure::Wrong)
            }
        }
    }
}
