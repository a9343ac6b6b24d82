// One line: what its words say, from left to right.
ghost use Rattle.std.specs.Prelude.{◌≡◌};
ghost use Rattle.listing.specs.Names.{multiple};
ghost use Rattle.listing.specs.Lines.{address_in, line_ended, from_access, from_physical, from_virtual, from_kind, body_length, parsed};

use crate::{AddressError, Class, Wrong, hex, tokens};
use page::{Kind, PhysicalAddress, VirtualAddress};
use records::Mapping;

// The most bytes of a line without its end.
const LONGEST: usize = 200;

// The first address past the virtual ones.
const VIRTUAL: u64 = 1 << 24;

// The first address past the physical ones.
const PHYSICAL: u64 = 1 << 32;

// Whether an address is a multiple of a page's size.
fn multiple(k: Kind, x: u32) -> bool
    ensures { result ≡ multiple k x }
{
    x - page::page_start(k, x) == 0
}

// What a word says where an address of a kind of page is to stand, below an end.
fn address(w: &[u8], end: u64, k: Kind) -> Result<u32, AddressError>
    ensures { result ≡ address_in end k w.now }
{
    if w.is_empty() {
        return Err(AddressError::Missing);
    }
    let x = hex::number(w)?;
    if end <= u64::from(x) {
        Err(AddressError::TooLarge)
    } else if multiple(k, x) {
        Ok(x)
    } else {
        Err(AddressError::Uneven)
    }
}

// A line behind its access: nothing more is to stand there.
fn ended(line: &[u8], m: Mapping) -> Result<Option<Mapping>, Wrong>
    ensures { result ≡ line_ended m line.now }
{
    if tokens::run(line, Class::Blank) == line.len() {
        Ok(Some(m))
    } else {
        Err(Wrong::WordTooMany)
    }
}

// A line from its access on.
fn from_access(line: &[u8], k: Kind, v: u32, p: u32) -> Result<Option<Mapping>, Wrong>
    ensures { result ≡ from_access k v p line.now }
{
    let (w, rest) = tokens::word(line);
    if w.is_empty() {
        return Err(Wrong::WordMissing);
    }
    let Some(access) = tokens::access_named(w) else {
        return Err(Wrong::UnknownAccess);
    };
    let m = Mapping {
        at: VirtualAddress(v),
        to: PhysicalAddress(p),
        kind: k,
        access,
    };
    ended(rest, m)
}

// A line from its physical address on.
fn from_physical(line: &[u8], k: Kind, v: u32) -> Result<Option<Mapping>, Wrong>
    ensures { result ≡ from_physical k v line.now }
{
    let (w, rest) = tokens::word(line);
    match address(w, PHYSICAL, k) {
        Ok(p) => from_access(rest, k, v, p),
        Err(AddressError::Missing) => Err(Wrong::WordMissing),
        Err(AddressError::NotHex) => Err(Wrong::PhysicalNotHex),
        Err(AddressError::TooLarge) => Err(Wrong::PhysicalTooLarge),
        Err(AddressError::Uneven) => Err(Wrong::PhysicalUneven),
    }
}

// A line from its virtual address on.
fn from_virtual(line: &[u8], k: Kind) -> Result<Option<Mapping>, Wrong>
    ensures { result ≡ from_virtual k line.now }
{
    let (w, rest) = tokens::word(line);
    match address(w, VIRTUAL, k) {
        Ok(v) => from_physical(rest, k, v),
        Err(AddressError::Missing) => Err(Wrong::WordMissing),
        Err(AddressError::NotHex) => Err(Wrong::VirtualNotHex),
        Err(AddressError::TooLarge) => Err(Wrong::VirtualTooLarge),
        Err(AddressError::Uneven) => Err(Wrong::VirtualUneven),
    }
}

// A line without its end and its comment.
fn from_kind(line: &[u8]) -> Result<Option<Mapping>, Wrong>
    ensures { result ≡ from_kind line.now }
{
    if tokens::run(line, Class::Blank) == line.len() {
        return Ok(None);
    }
    let (w, rest) = tokens::word(line);
    match tokens::kind_named(w) {
        Some(k) => from_virtual(rest, k),
        None => Err(Wrong::UnknownKind),
    }
}

// The bytes of a line without a carriage return at its end.
pub(crate) fn body_length(line: &[u8]) -> usize
    ensures { result ≡ body_length line.now }
{
    let n = line.len();
    if n > 0 && line[n - 1] == b'\r' {
        n - 1
    } else {
        n
    }
}

// What a line says: nothing, a mapping, or what is wrong.
pub(crate) fn said(line: &[u8]) -> Result<Option<Mapping>, Wrong>
    ensures { result ≡ parsed line.now }
{
    let n = body_length(line);
    if n > LONGEST {
        return Err(Wrong::LineTooLong);
    }
    let c = tokens::run(&line[0..n], Class::Plain);
    from_kind(&line[0..c])
}
