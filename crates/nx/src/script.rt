// A line of a script: a call, a price, nothing, or what is wrong with it.
use crate::parse::{self, BadHex};
use calls::Call;
use page::{Access, VirtualAddress};
use prices::Price;
use std::fmt;
use std::fmt::{Display, Formatter, Write};

// The most bytes of a line.
const LONGEST: usize = 200;

// The registers' names, in the order of the paper's Table 3.
pub const REGISTERS: [&str; 21] = [
    "prefetch",
    "walk-status",
    "control",
    "fault-address-high",
    "fault-address-low",
    "fault-status",
    "acknowledge",
    "base-high",
    "base-low",
    "lock",
    "load",
    "cam-high",
    "cam-low",
    "ram-high",
    "ram-low",
    "global-flush",
    "entry-flush",
    "read-cam-high",
    "read-cam-low",
    "read-ram-high",
    "read-ram-low",
];

// The offsets of the prefetch and of the acknowledge register.
const PREFETCH: u32 = 0x00;

pub const ACKNOWLEDGE: u32 = 0x18;

// A prefetch takes an address by this many bytes.
const REACH: u32 = 1024;

// What is wrong with a line.
#[derive(Clone, Copy)]
pub enum Wrong {
    UnknownCall,
    UnknownRegister,
    NotHex,
    TooLarge,
    Value,
    Access,
    Missing,
    TooMany,
    Memory,
    Price,
    Figure,
    TooLong,
    Late,
    NoRoom,
}

// One of the two memories.
#[derive(Clone, Copy)]
pub enum Memory {
    OnChip,
    External,
}

// What a line says, where it says anything.
#[derive(Clone, Copy)]
pub enum Step {
    Make(Call),
    Price(Memory, Price),
}

impl Display for Wrong {
    fn fmt<W: Write>(&self, f: &mut Formatter<W>) -> fmt::Result {
        f.write_str(match self {
            Wrong::UnknownCall => {
                "unknown call (write, read, request, acknowledge, prefetch, drop, shift or price)"
            }
            Wrong::UnknownRegister => "unknown register",
            Wrong::NotHex => "not a hex number",
            Wrong::TooLarge => "the number is too large",
            Wrong::Value => "a register's value is over FFFF",
            Wrong::Access => "unknown access (r or w)",
            Wrong::Missing => "a word is missing",
            Wrong::TooMany => "a word too many",
            Wrong::Memory => "unknown memory (on-chip or external)",
            Wrong::Price => "unknown price (flat or row)",
            Wrong::Figure => "not a price (at most nine digits, two of them behind the point)",
            Wrong::TooLong => "the line is longer than 200 bytes",
            Wrong::Late => "a price behind the first call",
            Wrong::NoRoom => "a recording has no room for a register offset over FF",
        })
    }
}

impl From<BadHex> for Wrong {
    fn from(e: BadHex) -> Wrong {
        match e {
            BadHex::NotHex => Wrong::NotHex,
            BadHex::TooLarge => Wrong::TooLarge,
        }
    }
}

// A word of a line by its place, empty where the line has fewer.
fn word(c: &[u8], place: usize) -> &[u8] {
    parse::word(c, place).unwrap_or(b"")
}

// A register's offset, by its name or as it is.
fn offset(w: &[u8]) -> Result<u32, Wrong> {
    if let Some(place) = REGISTERS.iter().position(|name| name.as_bytes() == w) {
        return Ok(4 * place as u32);
    }
    match parse::hex(w) {
        Ok(offset) => Ok(offset),
        Err(BadHex::NotHex) => Err(Wrong::UnknownRegister),
        Err(BadHex::TooLarge) => Err(Wrong::TooLarge),
    }
}

// A register's value.
fn value(w: &[u8]) -> Result<u16, Wrong> {
    match parse::hex(w) {
        Ok(n) => u16::try_from(n).or(Err(Wrong::Value)),
        Err(BadHex::NotHex) => Err(Wrong::NotHex),
        Err(BadHex::TooLarge) => Err(Wrong::Value),
    }
}

// An access.
fn access(w: &[u8]) -> Result<Access, Wrong> {
    match w {
        b"r" => Ok(Access::Read),
        b"w" => Ok(Access::Write),
        _ => Err(Wrong::Access),
    }
}

// A virtual address.
fn address(w: &[u8]) -> Result<VirtualAddress, Wrong> {
    Ok(VirtualAddress(parse::hex(w)?))
}

// A prefetch of an address.
fn prefetch(w: &[u8]) -> Result<Call, Wrong> {
    let n = parse::hex(w)? / REACH;
    Ok(Call::Write(PREFETCH, u16::try_from(n).or(Err(Wrong::Value))?))
}

// The words that a price has, none where it is neither flat nor by row.
pub(crate) fn price_words(form: &[u8]) -> Option<usize> {
    match form {
        b"flat" => Some(4),
        b"row" => Some(5),
        _ => None,
    }
}

// The memory that a word names.
pub(crate) fn memory_named(w: &[u8]) -> Option<Memory> {
    match w {
        b"on-chip" => Some(Memory::OnChip),
        b"external" => Some(Memory::External),
        _ => None,
    }
}

// A figure in nanoseconds.
fn figure(w: &[u8]) -> Result<f64, Wrong> {
    parse::decimal(w).ok_or(Wrong::Figure)
}

// A price, by its words: its memory, its form and its figures.
pub(crate) fn price_of(
    name: &[u8],
    form: &[u8],
    first: &[u8],
    second: &[u8],
) -> Result<(Memory, Price), Wrong> {
    let memory = memory_named(name).ok_or(Wrong::Memory)?;
    let price = match form {
        b"flat" => Price::Flat(figure(first)?),
        b"row" => Price::Row {
            same: figure(first)?,
            fresh: figure(second)?,
        },
        _ => return Err(Wrong::Price),
    };
    Ok((memory, price))
}

// How many words a line has whose first word and form are these; none where they are unknown.
fn words(call: &[u8], form: &[u8]) -> Option<usize> {
    match call {
        b"write" | b"request" => Some(3),
        b"read" | b"prefetch" | b"shift" => Some(2),
        b"acknowledge" | b"drop" => Some(1),
        b"price" => price_words(form),
        _ => None,
    }
}

// What a line says, up to its comment.
fn step_of(c: &[u8]) -> Result<Step, Wrong> {
    let call = match word(c, 0) {
        b"write" => Call::Write(offset(word(c, 1))?, value(word(c, 2))?),
        b"read" => Call::Read(offset(word(c, 1))?),
        b"request" => {
            let a = access(word(c, 1))?;
            Call::Request(address(word(c, 2))?, a)
        }
        b"acknowledge" => Call::Write(ACKNOWLEDGE, 1),
        b"prefetch" => prefetch(word(c, 1))?,
        b"drop" => Call::Drop,
        b"shift" => Call::Shift(address(word(c, 1))?),
        b"price" => {
            let (memory, price) = price_of(word(c, 1), word(c, 2), word(c, 3), word(c, 4))?;
            return Ok(Step::Price(memory, price));
        }
        _ => return Err(Wrong::UnknownCall),
    };
    Ok(Step::Make(call))
}

// What a line says, nothing where it has no word.
pub(crate) fn said(line: &[u8]) -> Result<Option<Step>, Wrong> {
    if line.len() > LONGEST {
        return Err(Wrong::TooLong);
    }
    let c = parse::code(line);
    let Some(first) = parse::word(c, 0) else {
        return Ok(None)
    };
    if let Some(n) = words(first, word(c, 2)) {
        if parse::word(c, n.saturating_sub(1)).is_none() {
            return Err(Wrong::Missing);
        }
        if parse::word(c, n).is_some() {
            return Err(Wrong::TooMany);
        }
    }
    step_of(c).map(Some)
}
