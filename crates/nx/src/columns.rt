// The columns of a call in a table: what a list says of it, what the unit answered, where the last word of
// its walk lies.
use calls::Call;
use decision::Said;
use memory::Place;
use page::Access;
use records::Denial;
use std::fmt;
use std::fmt::{Display, Formatter, InlineText, Write};

// A place's offset is below this, and its memory's number stands above it.
const OFFSETS: u32 = 268435456;

// What a list says of a call, in a column of eleven.
#[derive(Clone, Copy)]
pub struct Meant<'a> {
    pub records: &'a [u8],
    pub call: Call,
}

// What a call said: the number of the answer, the place of the last word of its walk, and a value.
#[derive(Clone, Copy)]
pub struct Answered {
    number: u32,
    place: u32,
    value: u64,
}

// Where the last word of a call's walk lies: its memory and its offset there.
#[derive(Clone, Copy)]
pub struct Source(pub Answered);

// The fault at an address to which a list gives no byte.
fn denied<W: Write>(f: &mut Formatter<W>, d: Denial) -> fmt::Result {
    match d {
        Denial::Permission => f.write_str("fault 23   "),
        Denial::Translation => f.write_str("fault 21   "),
    }
}

impl Display for Meant<'_> {
    fn fmt<W: Write>(&self, f: &mut Formatter<W>) -> fmt::Result {
        match self.call {
            Call::Request(va, access) => match records::lists::means(self.records, va, access) {
                Ok(to) => write!(f, "{:08X}   ", to.0),
                Err(d) => denied(f, d),
            },
            Call::Shift(va) => match records::lists::means(self.records, va, Access::Read) {
                Ok(to) => write!(f, "{:<11}", i64::from(to.0) - i64::from(va.0)),
                Err(d) => denied(f, d),
            },
            Call::Write(_, _) | Call::Read(_) | Call::Drop => f.write_str("-          "),
        }
    }
}

impl Answered {
    // What the 16 bytes say in which a call's answer is kept.
    pub fn of(said: &[u8]) -> Answered {
        Answered {
            number: wire::word_at(said, 0),
            place: wire::word_at(said, 4),
            value: u64::from(wire::word_at(said, 8)) | u64::from(wire::word_at(said, 12)) << 32,
        }
    }

    // What a call said of which the last word lies at a place.
    pub fn made(said: Said, from: Place) -> Answered {
        let mut bytes = [0u8; 16];
        run::answers::put_said(&mut bytes, 0, said, from);
        Answered::of(&bytes)
    }

    // The answer in a few words.
    fn words(self) -> InlineText<32> {
        match self.number {
            0 => InlineText::of("done"),
            21 => InlineText::of("fault 21 translation"),
            22 => InlineText::of("fault 22 miss"),
            23 => InlineText::of("fault 23 permission"),
            24 => InlineText::of("fault 24 prefetch"),
            100 => InlineText::of(format_args!("{:08X}", self.value)),
            101 => InlineText::of(format_args!("{:04X}", self.value)),
            102 => InlineText::of(self.value.cast_signed()),
            n => InlineText::of(format_args!("refused {n}")),
        }
    }
}

// The answer, in a column of 22.
impl Display for Answered {
    fn fmt<W: Write>(&self, f: &mut Formatter<W>) -> fmt::Result {
        write!(f, "{:<22}", self.words().as_str())
    }
}

impl Display for Source {
    fn fmt<W: Write>(&self, f: &mut Formatter<W>) -> fmt::Result {
        let place = self.0.place;
        match place / OFFSETS {
            1 => write!(f, "on-chip  {:04X}", place % OFFSETS),
            2 => write!(f, "external {:04X}", place % OFFSETS),
            _ => f.write_str("-"),
        }
    }
}
