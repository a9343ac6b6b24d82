// What the byte boundary answers in one number, and a comparison in six words.
ghost use Rattle.std.specs.Prelude.{◌≡◌, ◌%◌, ◌^◌, ◌≤◌};
ghost use Rattle.capi.specs.Names.{cut_place, owner_number};
ghost use Rattle.capi.specs.Numbers.{refused, place_number, built_word, cut_built, verdict_word, inventory_word, cut_inventory, parting_words, comparison_said, written_word, cut_written};

use audit::{ImageError, ListError};
use builder::BuildError;
use memory::Place;
use page::PhysicalAddress;
use parting::{Owner, Parting};
use recording::RecordingError;

// A refusal with an index or a count, in one number.
fn refusal(number: u64, i: usize) -> u64
    requires { number ≤ 16 }
    ensures { result ≡ refused number (i % 2 ^ 32) }
{
    9223372036854775808 + number * 4294967296 + (i % 4294967296) as u64
}

// A refusal that names a word, in one number.
fn refusal_at(number: u64, at: PhysicalAddress) -> u64
    requires { number ≤ 18 }
    ensures { result ≡ refused number at.0 }
{
    9223372036854775808 + number * 4294967296 + at.0 as u64
}

// The answer of a build, in one number.
pub(crate) fn built_number(b: Result<usize, BuildError>) -> u64
    ensures { result ≡ built_word (cut_built b) }
{
    match b {
        Ok(length) => length as u64,
        Err(BuildError::BadMemory) => refusal(4, 0),
        Err(BuildError::BadRecord(i)) => refusal(10, i),
        Err(BuildError::Overlap(i)) => refusal(11, i),
        Err(BuildError::TooLong(n)) => refusal(12, n),
    }
}

// The verdict on an image, in one number.
pub(crate) fn verdict_number(v: Result<usize, ImageError>) -> u64
    ensures { result ≡ verdict_word v }
{
    match v {
        Ok(_) => 0,
        Err(ImageError::BadMemory) => refusal(4, 0),
        Err(ImageError::Outside(at)) => refusal_at(17, at),
        Err(ImageError::Unequal(at)) => refusal_at(18, at),
    }
}

// The answer of a listing, in one number.
pub(crate) fn inventory_number(a: Result<usize, ListError>) -> u64
    ensures { result ≡ inventory_word (cut_inventory a) }
{
    match a {
        Ok(n) => n as u64,
        Err(ListError::Image(e)) => verdict_number(Err(e)),
        Err(ListError::TooShort(n)) => refusal(12, n),
    }
}

// The answer of a recording written or read, in one number.
pub(crate) fn written_number(w: Result<usize, RecordingError>) -> u64
    ensures { result ≡ written_word (cut_written w) }
{
    match w {
        Ok(n) => n as u64,
        Err(RecordingError::Bad(i)) => refusal(16, i),
        Err(RecordingError::TooShort(n)) => refusal(12, n),
    }
}

// Where four bytes lie and the word they are, in one number.
pub(crate) fn place_number(p: Place, word: u32) -> u64
    ensures { result ≡ place_number (cut_place p) word }
{
    run::answers::place_code(p) as u64 * 4294967296 + word as u64
}

// The number of the image that a part is of.
fn owner_number(o: Owner) -> u32
    ensures { result ≡ owner_number o }
{
    match o {
        Owner::New => 1,
        Owner::Signed => 2,
    }
}

// A refusal or 0, whose the part is, its offset there, and the words that differ.
fn parting_words(number: u32, o: Owner, start: usize, words: usize) -> [u32; 6]
    ensures { result ≡ parting_words number o start words }
{
    [
        number,
        owner_number(o),
        (start % 4294967296) as u32,
        (start / 4294967296) as u32,
        (words % 4294967296) as u32,
        (words / 4294967296) as u32,
    ]
}

// A comparison in six words, of a new image of so many bytes.
pub(crate) fn comparison_words(c: Option<Parting>, len: usize) -> [u32; 6]
    ensures { result ≡ comparison_said c len }
{
    match c {
        None => parting_words(4, Owner::New, len, 0),
        Some(p) => parting_words(0, p.owner, p.start, p.words),
    }
}
