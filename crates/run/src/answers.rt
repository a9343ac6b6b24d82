// What a call said as 16 bytes: a number, where the last word of its walk lies, and a value.
ghost use Rattle.std.specs.Prelude.{◌≡◌};
ghost use Rattle.run.specs.Names.{fault_number, words_put};
ghost use Rattle.run.specs.Answers.{answer_code, answer_word, shift_code, shift_word, place_code, cut_place, said_words};

use decision::{Said, ShiftError};
use memory::Place;
use registers::{Answer, Fault};

// The numbers of a physical address, a register's value and a distance.
const ADDRESS: u32 = 100;

const VALUE: u32 = 101;

const DISTANCE: u32 = 102;

// A place's offset is below this, and its memory's number stands above it.
const OFFSETS: usize = 268435456;

// The number of a fault.
fn fault_number(k: Fault) -> u32
    ensures { result ≡ fault_number k }
{
    match k {
        Fault::Translation => 21,
        Fault::Miss => 22,
        Fault::Permission => 23,
        Fault::Prefetch => 24,
    }
}

// The number of an answer, and the value beside it.
fn answered(r: Answer) -> (u32, u64)
    ensures { (result.0 ≡ answer_code r) × (result.1 ≡ answer_word r) }
{
    match r {
        Answer::Address(x) => (ADDRESS, x.0 as u64),
        Answer::Fault(k) => (fault_number(k), 0),
        Answer::Value(x) => (VALUE, x as u64),
        Answer::Done => (0, 0),
        Answer::Refused(k) => (k as u32, 0),
    }
}

// The number of a shift report, and the value beside it.
fn reported(s: Result<i64, ShiftError>) -> (u32, u64)
    ensures { (result.0 ≡ shift_code s) × (result.1 ≡ shift_word s) }
{
    match s {
        Ok(d) => (DISTANCE, wire::twos(d)),
        Err(ShiftError::Fault) => (fault_number(Fault::Translation), 0),
        Err(ShiftError::Refused(k)) => (k as u32, 0),
    }
}

// A place in one word: the number of its memory and the offset there.
pub fn place_code(p: Place) -> u32
    ensures { result ≡ place_code (cut_place p) }
{
    match p {
        Place::OnChip(k) => (OFFSETS + k % OFFSETS) as u32,
        Place::External(k) => (2 * OFFSETS + k % OFFSETS) as u32,
        Place::Nowhere => 0,
    }
}

// What a call said and where the last word of its walk lies, as four words: a number, a place and a value.
fn said_words(said: Said, from: Place) -> [u32; 4]
    ensures { result ≡ said_words said (cut_place from) }
{
    let (number, value) = match said {
        Said::Answered(r) => answered(r),
        Said::Reported(s) => reported(s),
    };
    [
        number,
        place_code(from),
        (value % 4294967296) as u32,
        (value / 4294967296) as u32,
    ]
}

// What a call said and where the last word of its walk lies, at an offset, where there is room.
pub fn put_said(out: &mut [u8], at: usize, said: Said, from: Place)
    ensures { out.new ≡ words_put out.old at (said_words said (cut_place from)) }
{
    wire::put(out, at, &said_words(said, from));
}
