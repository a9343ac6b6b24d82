#![tactic(auto)]
// Numbers as little-endian bytes: words put into a buffer and read from one.
ghost use Rattle.std.specs.Prelude.{◌≡◌, ◌∷◌, ◌+◌, ◌*◌, ◌≤◌};
ghost use Rattle.wire.specs.Names.{ℕ, [], leb, length, get_or};
ghost use Rattle.wire.specs.Words.{little_endian, word_of, placed, words_put, pasted, bytes_put, halves, swapped, word_at, low_at, high_at};
ghost use Rattle.wire.specs.Signed.{twos};
ghost use Rattle.wire.specs.Spliced.{run_put};

// Four bytes as a number, little-endian.
pub fn word(a: u8, b: u8, c: u8, d: u8) -> u32
    ensures { result ≡ little_endian a b c d }
{
    u32::from_le_bytes([a, b, c, d])
}

// The word that a part's first four bytes are; 0 where there are fewer.
#[tactic(auto, using(page::proofs::Picks::tests), unfolding(crate::specs::Words::word_of))]
pub fn word_of(s: &[u8]) -> u32
    ensures { result ≡ word_of s.now }
{
    match *s {
        [a, b, c, d, ..] => word(a, b, c, d),
        _ => 0,
    }
}

// Two numbers of 16 bits, as they lie one behind the other.
pub fn halves(a: u16, b: u16) -> u32
    ensures { result ≡ halves a b }
{
    u32::from(a) + 65536 * u32::from(b)
}

// A slot's word as it lies in register form, the high half first.
pub fn swapped(w: u32) -> u32
    ensures { result ≡ swapped w }
{
    w.rotate_left(16)
}

// Whether as many words fit in a buffer from an offset on.
pub fn room(len: usize, at: usize, n: usize) -> bool
    ensures { result ≡ leb (at + 4 * n) len }
{
    at <= len && n <= (len - at) / 4
}

// A word, at an offset.
fn put_word(out: &mut [u8], at: usize, w: u32)
    requires { at + 4 ≤ length out.old }
    ensures { out.new ≡ placed out.old at (w ∷ []) }
{
    out[at..at + 4].copy_from_slice(&w.to_le_bytes());
}

// Words from an offset on, where they have room.
#[tactic(auto, using(page::proofs::Picks::tests), unfolding(crate::specs::Words::words_put))]
pub fn put(out: &mut [u8], at: usize, words: &[u32])
    ensures { out.new ≡ words_put out.old at words.now }
{
    if room(out.len(), at, words.len()) {
        for (i, w) in words.iter().enumerate() {
            put_word(out, at + 4 * i, *w);
        }
    }
}

// Bytes that have room, from an offset on.
// Kept: copy_from_slice makes the archive for C ask for `memmove` from outside.
fn copy(out: &mut [u8], at: usize, s: &[u8])
    requires { at + length s.now ≤ length out.old }
    ensures { out.new ≡ pasted out.old at s.now }
{
    for i in 0..s.len() {
        out[at + i] = s[i];
    }
}

// Bytes from an offset on, where they have room.
#[tactic(auto, using(page::proofs::Picks::tests), unfolding(crate::specs::Words::bytes_put))]
pub fn put_bytes(out: &mut [u8], at: usize, s: &[u8])
    ensures { out.new ≡ bytes_put out.old at s.now }
{
    if at <= out.len() && s.len() <= out.len() - at {
        copy(out, at, s);
    }
}

// A word a number of times over, from an offset on, where it has room.
#[tactic(auto, using(page::proofs::Picks::tests), unfolding(crate::specs::Spliced::run_put))]
pub fn put_run(out: &mut [u8], at: usize, n: usize, w: u32)
    ensures { out.new ≡ run_put out.old at n w }
{
    if room(out.len(), at, n) {
        for i in 0..n {
            put_word(out, at + 4 * i, w);
        }
    }
}

// The byte at an offset, 0 where there is none.
pub fn byte_at(s: &[u8], at: usize) -> u8
    ensures { result ≡ get_or s.now at 0 }
{
    s.get(at).copied().unwrap_or(0)
}

// The word at an offset, 0 where there are no four bytes.
pub fn word_at(s: &[u8], at: usize) -> u32
    ensures { result ≡ word_at s.now at }
{
    match s.get(at..) {
        Some(part) => word_of(part),
        None => 0,
    }
}

// The first and the second 16 bits of the word at an offset.
pub fn low_at(s: &[u8], at: usize) -> u16
    ensures { result ≡ low_at s.now at }
{
    (word_at(s, at) % 65536) as u16
}

pub fn high_at(s: &[u8], at: usize) -> u16
    ensures { result ≡ high_at s.now at }
{
    (word_at(s, at) / 65536) as u16
}

// A number in two's complement.
pub fn twos(d: i64) -> u64
    ensures { result ≡ twos d }
{
    d.cast_unsigned()
}
