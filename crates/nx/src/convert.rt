// nx records and nx text: between a list as text and the binary records of the builder.
use crate::failure::{self, Failure};
use crate::files;
use crate::list::{self, At, Room};
use std::fmt;
use std::fmt::{Display, Formatter, Write};

// The bytes of the most records, and one more.
const INPUT: usize = list::RECORDS + 1;

// Room for the most records as text.
const PRINTED: usize = listing::WIDEST * records::MOST;

// Why records are refused.
#[derive(Clone, Copy)]
enum BadRecords {
    Bad(usize),
    Short(usize),
    TooMany(usize),
}

impl Display for BadRecords {
    fn fmt<W: Write>(&self, f: &mut Formatter<W>) -> fmt::Result {
        match *self {
            BadRecords::Bad(i) => write!(f, "refused 10 at {i}: the record is bad"),
            BadRecords::Short(i) => write!(f, "refused 10 at {i}: the record is short"),
            BadRecords::TooMany(i) => write!(f, "refused 10 at {i}: more than {i} records"),
        }
    }
}

// nx records LIST.
pub(crate) fn records(rt: HostRuntime, path: &[u8]) -> Result<(), Failure> {
    let mut room = Room::new();
    let list = room.load(rt, path)?;
    files::told(rt, rt.write_all(list.records))
}

// Tests that there are only whole records, well-formed and not too many.
fn tested(records: &[u8]) -> Result<(), BadRecords> {
    let n = records::count(records);
    if let Some(i) = records
        .chunks_exact(records::SIZE)
        .position(|r| !records::well_formed(r))
    {
        return Err(BadRecords::Bad(i));
    }
    if records.len() % records::SIZE == 0 {
        return Ok(());
    }
    Err(if n < records::MOST {
        BadRecords::Short(n)
    } else {
        BadRecords::TooMany(n)
    })
}

// nx text RECORDS.
pub(crate) fn text(rt: HostRuntime, path: &[u8]) -> Result<(), Failure> {
    let mut room = [0u8; INPUT];
    let records = files::read(rt, path, &mut room)?;
    if let Err(e) = tested(records) {
        failure::say(rt, format_args!("{}{e}\n", At(path, 0)));
        return Err(Failure::Wrong);
    }
    let mut out = [0u8; PRINTED];
    match listing::print(records, &mut out) {
        Ok(n) => files::told(rt, rt.write_all(out.get(..n).unwrap_or(b""))),
        Err(_) => Err(Failure::Wrong),
    }
}
