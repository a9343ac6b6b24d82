#![tactic(auto)]
// The builder's input: records of 12 bytes as mappings, what makes one proper, and which addresses it has.
mod bitmap;
pub mod lists;

ghost use Rattle.std.specs.Prelude.{◌≡◌, ◌+◌, ◌*◌, ◌<◌, ◌≤◌};
ghost use Rattle.records.specs.Names.{megabytes, length, get_or, take, drop, word_of};
ghost use Rattle.records.specs.Mappings.{record_size, record_at, mapping_of, mappings, no_mapping, holds, byte_of};
ghost use Rattle.records.specs.Checks.{well_formed};

use page::{Kind, LIMIT, PhysicalAddress, VirtualAddress};

// The bytes of a record.
pub const SIZE: usize = 12;

// The most records of a list.
pub const MOST: usize = 1024;

// A page of virtual addresses, where it lies, and the access to it.
#[derive(Clone, Copy)]
pub struct Mapping {
    pub at: VirtualAddress,
    pub to: PhysicalAddress,
    pub kind: Kind,
    pub access: u32,
}

// The first refusal of a list, with its record's index.
#[derive(Clone, Copy)]
pub enum BadList {
    BadRecord(usize),
    Overlap(usize),
}

// Why a list means no physical byte at an address: the fault.
#[derive(Clone, Copy)]
pub enum Denial {
    Permission,
    Translation,
}

impl Mapping {
    // Whether its region has an address.
    pub fn holds(self, va: VirtualAddress) -> bool
        ensures { result ≡ holds self va }
    {
        let n = page::low_bits(self.kind);
        va.0 >> n == self.at.0 >> n
    }

    // The physical byte that it gives for an address.
    pub fn byte_of(self, va: VirtualAddress) -> PhysicalAddress
        ensures { result ≡ byte_of self va }
    {
        page::join(self.kind, self.to, va)
    }
}

// The word of four bytes from byte i on.
fn word_at(r: &[u8], i: usize) -> u32
    requires { i + 4 ≤ length r.now }
    ensures { result ≡ word_of (take 4 (drop i r.now)) }
{
    wire::word_of(&r[i..i + 4])
}

// The mapping that a record's bytes say.
pub(crate) fn mapping_of(r: &[u8]) -> Mapping
    requires { record_size ≤ length r.now }
    ensures { result ≡ mapping_of r.now }
{
    Mapping {
        at: VirtualAddress(word_at(r, 0)),
        to: PhysicalAddress(word_at(r, 4)),
        kind: page::kind_of(r[8] as u32),
        access: r[9] as u32,
    }
}

// How many whole records there are.
pub fn count(records: &[u8]) -> usize
    ensures { result ≡ length (mappings records.now) }
{
    records.len() / SIZE
}

// The mapping of record i, or the empty one past the last.
pub fn mapping_at(records: &[u8], i: usize) -> Mapping
    ensures { result ≡ get_or (mappings records.now) i no_mapping }
{
    if i < records.len() / SIZE {
        let at = SIZE * i;
        mapping_of(&records[at..at + SIZE])
    } else {
        Mapping {
            at: VirtualAddress(0),
            to: PhysicalAddress(0),
            kind: Kind::Section,
            access: 0,
        }
    }
}

// Whether a record's bytes are as they must be.
pub fn well_formed(r: &[u8]) -> bool
    ensures { result ≡ well_formed megabytes r.now }
{
    if r.len() < SIZE {
        return false;
    }
    let (at, to, rest) = (word_at(r, 0), word_at(r, 4), word_at(r, 8));
    let kind = page::kind_of(rest % 256);
    rest / 512 == 1 && rest % 256 < 4 && at < LIMIT && (at | to) % (1 << page::low_bits(kind)) == 0
}
