// Numbers in hex: a digit, a word of digits.
ghost use Rattle.std.specs.Prelude.{◌≡◌, ◌+◌, ◌*◌, ◌<◌};
ghost use Rattle.listing.specs.Names.{ltb, pick};
ghost use Rattle.listing.specs.Numbers.{end, digit, read_on, hex_digits, prefixed, hex_number};

use crate::NumberError;

// The first number past those of 32 bits.
const END: u64 = 1 << 32;

// The value of a hex digit, 16 where the byte is none.
pub(crate) fn digit(x: u8) -> u8
    ensures { result ≡ digit x }
{
    match x {
        b'0'..=b'9' => x - b'0',
        b'A'..=b'F' => x - b'A' + 10,
        b'a'..=b'f' => x - b'a' + 10,
        _ => 16,
    }
}

// A value with one digit more; a value past 32 bits stays as it is.
fn on(v: u64, d: u8) -> u64
    requires { d < 16 }
    ensures { result ≡ pick (ltb v end) (16 * v + d) v }
{
    if v < END { 16 * v + u64::from(d) } else { v }
}

// The number that digits write.
fn digits(w: &[u8]) -> Result<u32, NumberError>
    ensures { result ≡ read_on 0 w.now }
{
    let mut v = 0;
    for x in w {
        let d = digit(*x);
        if d >= 16 {
            return Err(NumberError::NotHex);
        }
        v = on(v, d);
    }
    if v < END {
        Ok(v as u32)
    } else {
        Err(NumberError::TooLarge)
    }
}

// The number that digits write, if there is one at least.
fn written(w: &[u8]) -> Result<u32, NumberError>
    ensures { result ≡ hex_digits w.now }
{
    if w.is_empty() {
        Err(NumberError::NotHex)
    } else {
        digits(w)
    }
}

// Whether a word begins with 0x.
fn prefixed(w: &[u8]) -> bool
    ensures { result ≡ prefixed w.now }
{
    if w.len() < 2 || w[0] != b'0' {
        return false;
    }
    w[1] == b'x' || w[1] == b'X'
}

// The number that a word writes.
pub(crate) fn number(w: &[u8]) -> Result<u32, NumberError>
    ensures { result ≡ hex_number w.now }
{
    if prefixed(w) {
        written(&w[2..])
    } else {
        written(w)
    }
}
