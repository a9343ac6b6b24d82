// A list's lines, printed one after the other.
ghost use Rattle.std.specs.Prelude.{◌≡◌, ◌+◌, ◌*◌, ◌<◌, ◌≤◌};
ghost use Rattle.listing.specs.Names.{length, record_size, mappings};
ghost use Rattle.wire.specs.Words.{pasted, shown};
ghost use Rattle.listing.specs.Prints.{glyph, kind_column, hex_column, access_column, line_text, widest, printed, formed, formed_from, shown_at};

use crate::bytes;
use page::Kind;
use records::Mapping;

// A hex digit's byte.
fn glyph(d: u32) -> u8
    requires { d < 16 }
    ensures { result ≡ glyph d }
{
    if d < 10 { b'0' + d as u8 } else { 55 + d as u8 }
}

// An address's eight digits and a blank.
fn hex_column(x: u32) -> [u8; 9]
    ensures { result ≡ hex_column 8 x }
{
    let a = x / 16;
    let b = a / 16;
    let c = b / 16;
    let d = c / 16;
    let e = d / 16;
    let f = e / 16;
    let g = f / 16;
    [
        glyph(g % 16),
        glyph(f % 16),
        glyph(e % 16),
        glyph(d % 16),
        glyph(c % 16),
        glyph(b % 16),
        glyph(a % 16),
        glyph(x % 16),
        32,
    ]
}

// A kind's word and blanks up to the next column.
fn put_kind(out: &mut [u8], at: usize, k: Kind)
    requires { at + 8 ≤ length out.old }
    ensures { out.new ≡ pasted out.old at (kind_column k) }
{
    match k {
        Kind::Section => bytes::put(out, at, b"section "),
        Kind::Large => bytes::put(out, at, b"large   "),
        Kind::Small => bytes::put(out, at, b"small   "),
        Kind::Tiny => bytes::put(out, at, b"tiny    "),
    }
}

// An access's word and the line's end; the index behind them.
fn put_access(out: &mut [u8], at: usize, a: u32) -> usize
    requires { at + 3 ≤ length out.old }
    ensures { shown result out.new ≡ shown_at out.old at (access_column a) }
{
    if a == 3 {
        bytes::put(out, at, b"rw\n");
        at + 3
    } else {
        bytes::put(out, at, b"r\n");
        at + 2
    }
}

// A mapping's line; the index behind it.
fn put_line(out: &mut [u8], at: usize, m: Mapping) -> usize
    requires { at + widest ≤ length out.old }
    ensures { shown result out.new ≡ shown_at out.old at (line_text m) }
{
    put_kind(out, at, m.kind);
    let v = hex_column(m.at.0);
    bytes::put(out, at + 8, &v[2..9]);
    bytes::put(out, at + 15, &hex_column(m.to.0));
    put_access(out, at + 24, m.access)
}

// The lines of all records; how many bytes they have.
pub(crate) fn put_lines(records: &[u8], out: &mut [u8]) -> usize
    requires { widest * length (mappings records.now) ≤ length out.old }
    ensures { shown result out.new ≡ shown_at out.old 0 (printed (mappings records.now)) }
{
    let mut at = 0;
    for i in 0..records::count(records) {
        at = put_line(out, at, records::mapping_at(records, i));
    }
    at
}

// Whether the first n records are well-formed.
fn all_formed(records: &[u8], n: usize) -> bool
    requires { record_size * n ≤ length records.now }
    ensures { result ≡ formed_from records.now 0 n }
{
    for i in 0..n {
        let at = records::SIZE * i;
        if !records::well_formed(&records[at..at + records::SIZE]) {
            return false;
        }
    }
    true
}

// Whether bytes are a list of well-formed records.
pub(crate) fn formed(records: &[u8]) -> bool
    ensures { result ≡ formed records.now }
{
    let n = records.len() / records::SIZE;
    if records.len() % records::SIZE != 0 || n > records::MOST {
        return false;
    }
    all_formed(records, n)
}
