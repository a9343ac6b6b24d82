// Lists of records: which of them are refused, which record holds an address, and what a list means there.
ghost use Rattle.std.specs.Prelude.{◌≡◌, ◌+◌, ◌*◌, ◌<◌};
ghost use Rattle.records.specs.Names.{true, false, get_or, set, megabytes, type_of};
ghost use Rattle.records.specs.Mappings.{mappings};
ghost use Rattle.records.specs.Noted.{Blank, note_at, Kinds};
ghost use Rattle.records.specs.Refusals.{checked};
ghost use Rattle.records.specs.Meanings.{holder, held_meaning, meaning};

use crate::{BadList, Denial, MOST, Mapping, SIZE, bitmap, mapping_of, well_formed};
use page::{Access, Kind, MEGABYTE, PhysicalAddress, VirtualAddress};

// Which kinds of page stand in which megabyte: by the kind's type bits, then by the megabyte.
#[derive(Clone, Copy)]
pub struct Notes(pub [bool; 64]);

impl Notes {
    // Whether a megabyte holds a page of a kind.
    pub fn has(&self, kind: Kind, mb: u32) -> bool
        ensures { result ≡ get_or self.now.0 (16 * type_of kind + mb) false }
    {
        let i = 16 * page::type_of(kind) as usize + mb as usize;
        self.0.get(i).copied().unwrap_or(false)
    }

    // Notes a mapping's kind and megabyte.
    fn note(&mut self, m: Mapping)
        requires { m.at.0 < 16777216 }
        ensures { self.new.0 ≡ set self.old.0 (note_at m) true }
    {
        self.0[(16 * page::type_of(m.kind) + m.at.0 / MEGABYTE) as usize] = true;
    }
}

// The first refusal of a list; where there is none, and nothing was noted before, the kinds of its pages are noted.
pub fn check(records: &[u8], seen: &mut Notes) -> Result<(), BadList>
    ensures { (result ≡ checked megabytes records.now) × (result ≡ Ok tt → Blank seen.old.0 → Kinds (mappings records.now) seen.new.0) }
{
    if records.is_empty() {
        return Ok(());
    }
    let mut taken = [0; bitmap::WORDS];
    for (i, r) in records.chunks_exact(SIZE).enumerate() {
        if MOST <= i || !well_formed(r) {
            return Err(BadList::BadRecord(i));
        }
        let m = mapping_of(r);
        if !bitmap::is_free(&taken, m) {
            return Err(BadList::Overlap(i));
        }
        bitmap::cover(&mut taken, m);
        seen.note(m);
    }
    if records.len() % SIZE != 0 {
        return Err(BadList::BadRecord(records.len() / SIZE));
    }
    Ok(())
}

// The first mapping whose region has an address.
fn holder(records: &[u8], va: VirtualAddress) -> Option<Mapping>
    ensures { result ≡ holder (mappings records.now) va }
{
    records
        .chunks_exact(SIZE)
        .map(|r| mapping_of(r))
        .find(|m| m.holds(va))
}

// What the mapping that holds an address, if one does, means there.
fn held_meaning(
    h: Option<Mapping>,
    va: VirtualAddress,
    a: Access,
) -> Result<PhysicalAddress, Denial>
    ensures { result ≡ held_meaning h va a }
{
    match h {
        Some(m) if page::permitted(m.access, a) => Ok(m.byte_of(va)),
        Some(_) => Err(Denial::Permission),
        None => Err(Denial::Translation),
    }
}

// What a list means at an address.
pub fn means(records: &[u8], va: VirtualAddress, a: Access) -> Result<PhysicalAddress, Denial>
    ensures { result ≡ meaning (mappings records.now) va a }
{
    held_meaning(holder(records, va), va, a)
}
