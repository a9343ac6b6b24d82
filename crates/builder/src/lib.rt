#![tactic(auto)]
// The builder: the tables of a list of records, in a lent memory, or why not.
mod image;
mod places;

ghost use Rattle.std.specs.Prelude.{◌≡◌};
ghost use Rattle.builder.specs.Build.{refusal_of, room_ok, outcome, build_of};

use page::PhysicalAddress;
use records::BadList;
use records::lists::{self, Notes};

// Why no tables are built: a refusal with its record's index or the count of the records.
#[derive(Clone, Copy)]
pub enum BuildError {
    BadMemory,
    BadRecord(usize),
    Overlap(usize),
    TooLong(usize),
}

impl From<BadList> for BuildError {
    ghost from_gives = { λ b e. e ≡ refusal_of b };

    fn from(b: BadList) -> BuildError {
        match b {
            BadList::BadRecord(i) => BuildError::BadRecord(i),
            BadList::Overlap(i) => BuildError::Overlap(i),
        }
    }
}

// Whether a memory may be lent to the builder: false where refusal 4 holds.
fn room_ok(base: PhysicalAddress, room: usize) -> bool
    ensures { result ≡ room_ok base.0 room }
{
    base.0 % 4096 == 0 && memory::memory_ok(base, room)
}

// The tables of a list, for a memory lent at a base.
pub fn build(records: &[u8], base: PhysicalAddress, memory: &mut [u8]) -> Result<usize, BuildError>
    ensures { outcome result memory.new ≡ build_of records.now base.0 memory.old }
{
    if !room_ok(base, memory.len()) {
        return Err(BuildError::BadMemory);
    }
    let mut seen = Notes([false; 64]);
    lists::check(records, &mut seen)?;
    image::write(records, &seen, base.0, memory).ok_or(BuildError::TooLong(records::count(records)))
}
