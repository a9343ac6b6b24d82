// A line's words: where the first one lies, and what it names.
ghost use Rattle.std.specs.Prelude.{◌≡◌};
ghost use Rattle.listing.specs.Words.{blank, belongs, run_length, word, rest, same_bytes, kind_named, access_named};

use crate::Class;
use page::Kind;

// Whether a byte is a blank or a tab.
pub(crate) fn blank(x: u8) -> bool
    ensures { result ≡ blank x }
{
    x == b' ' || x == b'\t'
}

// Whether a byte is of a class.
fn belongs(c: Class, x: u8) -> bool
    ensures { result ≡ belongs c x }
{
    match c {
        Class::Inline => x != b'\n',
        Class::Plain => x != b'#',
        Class::Blank => blank(x),
        Class::Solid => !blank(x),
    }
}

// How many bytes at the front are of a class.
pub(crate) fn run(s: &[u8], c: Class) -> usize
    ensures { result ≡ run_length c s.now }
{
    for i in 0..s.len() {
        if !belongs(c, s[i]) {
            return i;
        }
    }
    s.len()
}

// The first word, and what stands behind it.
pub(crate) fn word<'a>(line: &'a [u8]) -> (&'a [u8], &'a [u8])
    ensures first { result.0.now ≡ word line.now }
    ensures behind { result.1.now ≡ rest line.now }
{
    let from = run(line, Class::Blank);
    let s = &line[from..];
    s.split_at(run(s, Class::Solid))
}

// Whether two words are the same.
fn same(a: &[u8], b: &[u8]) -> bool
    ensures { result ≡ same_bytes a.now b.now }
{
    a == b
}

// The kind that a word names.
pub(crate) fn kind_named(w: &[u8]) -> Option<Kind>
    ensures { result ≡ kind_named w.now }
{
    if same(w, b"section") {
        Some(Kind::Section)
    } else if same(w, b"large") {
        Some(Kind::Large)
    } else if same(w, b"small") {
        Some(Kind::Small)
    } else if same(w, b"tiny") {
        Some(Kind::Tiny)
    } else {
        None
    }
}

// The access that a word names.
pub(crate) fn access_named(w: &[u8]) -> Option<u32>
    ensures { result ≡ access_named w.now }
{
    if same(w, b"r") {
        Some(2)
    } else if same(w, b"rw") {
        Some(3)
    } else {
        None
    }
}
