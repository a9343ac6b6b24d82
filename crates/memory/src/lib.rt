#![tactic(auto)]
// The two lent memories, where a descriptor's four bytes lie, and the part that holds them.
mod spans;

ghost use Rattle.std.specs.Prelude.{◌≡◌, ◌+◌, ◌≤◌};
ghost use Rattle.memory.specs.Names.{length, take, drop};
ghost use Rattle.memory.specs.Reads.{word_count, last_place};
ghost use Rattle.memory.specs.Memory.{memory_ok, lent_of, lent_ok, place_within, place_in, fetched_within, fetched_in, source_of};

use page::PhysicalAddress;
use spans::Span;

// The two lent memories, each with the address of its first byte.
#[derive(Clone, Copy)]
pub struct Memories<'a> {
    pub on: &'a [u8],
    pub onbase: PhysicalAddress,
    pub ext: &'a [u8],
    pub extbase: PhysicalAddress,
}

// Where four bytes lie: at an offset of the on-chip memory, of the external one, or in neither.
// Kept: no plainer as an Option of two: nowhere is one of three answers, each with its code in place_code.
#[derive(Clone, Copy)]
pub enum Place {
    OnChip(usize),
    External(usize),
    Nowhere,
}

// A word that was read: its address and the place that holds it.
#[derive(Clone, Copy)]
pub struct Source {
    pub at: PhysicalAddress,
    pub place: Place,
}

// The words that a walk read, in order.
#[derive(Clone, Copy)]
pub enum Reads {
    Nothing,
    One(Source),
    Two(Source, Source),
}

// The greatest length of a memory.
pub const LONGEST: usize = 131072;

// How many words were read.
pub fn count(reads: Reads) -> u32
    ensures { result ≡ word_count reads }
{
    match reads {
        Reads::Nothing => 0,
        Reads::One(_) => 1,
        Reads::Two(_, _) => 2,
    }
}

// Where the last of them lies.
pub fn last_place(reads: Reads) -> Place
    ensures { result ≡ last_place reads }
{
    match reads {
        Reads::Nothing => Place::Nowhere,
        Reads::One(a) => a.place,
        Reads::Two(_, b) => b.place,
    }
}

// Whether one memory may be lent.
pub fn memory_ok(base: PhysicalAddress, len: usize) -> bool
    ensures { result ≡ memory_ok base.0 len }
{
    Span { base: base.0, len }.ok()
}

// Four bytes of a memory.
fn four<'a>(memory: &'a [u8], k: usize) -> &'a [u8]
    requires { k + 4 ≤ length memory.now }
    ensures bytes { result.now ≡ take 4 (drop k memory.now) }
    ensures source { result.ref_ptr ≡ (memory.entry.ref_ptr.0, k + memory.entry.ref_ptr.1) }
{
    &memory[k..k + 4]
}

impl<'a> Memories<'a> {
    // The addresses of the on-chip memory.
    fn onchip(&self) -> Span
        ensures { result ≡ record { base = self.now.onbase.0; len = length self.now.on.now } }
    {
        Span {
            base: self.onbase.0,
            len: self.on.len(),
        }
    }

    // Those of the external one.
    fn external(&self) -> Span
        ensures { result ≡ record { base = self.now.extbase.0; len = length self.now.ext.now } }
    {
        Span {
            base: self.extbase.0,
            len: self.ext.len(),
        }
    }

    // Whether the two may be lent together: false where refusal 4 holds.
    pub fn ok(&self) -> bool
        ensures { result ≡ lent_ok (lent_of self.now) }
    {
        self.onchip().ok_beside(self.external())
    }

    // Where the four bytes at an address lie, for a caller that has tried the memories.
    #[tactic(auto, using(crate::proofs::Places::places), unfolding(crate::specs::Memory::place_within))]
    pub fn locate_within(&self, at: PhysicalAddress) -> Place
        ensures { result ≡ place_within (lent_of self.now) at.0 }
    {
        if let Some(k) = self.onchip().offset(at.0) {
            Place::OnChip(k)
        } else if let Some(k) = self.external().offset(at.0) {
            Place::External(k)
        } else {
            Place::Nowhere
        }
    }

    // Where the four bytes at an address lie; nowhere under refusal 4.
    #[tactic(auto, using(page::proofs::Picks::tests), unfolding(crate::specs::Memory::place_in))]
    pub fn locate(&self, at: PhysicalAddress) -> Place
        ensures { result ≡ place_in (lent_of self.now) at.0 }
    {
        if self.ok() {
            self.locate_within(at)
        } else {
            Place::Nowhere
        }
    }

    // The four bytes at an address as a part of whichever memory holds them, for a caller that has tried the memories.
    #[tactic(auto, using(page::proofs::Picks::tests), unfolding(crate::specs::Memory::place_within))]
    pub fn fetch_within(&self, at: PhysicalAddress) -> &'a [u8]
        ensures bytes { result.now ≡ fetched_within (lent_of self.now) at.0 }
        ensures source { result.ref_ptr ≡ source_of self.now.on self.now.ext (place_within (lent_of self.now) at.0) }
    {
        match self.locate_within(at) {
            Place::OnChip(k) => four(self.on, k),
            Place::External(k) => four(self.ext, k),
            Place::Nowhere => &self.on[0..0],
        }
    }

    // The four bytes at an address as a part of whichever memory holds them; under refusal 4 none of the on-chip one.
    #[tactic(auto, using(page::proofs::Picks::tests), unfolding(crate::specs::Memory::place_in))]
    pub fn fetch(&self, at: PhysicalAddress) -> &'a [u8]
        ensures bytes { result.now ≡ fetched_in (lent_of self.now) at.0 }
        ensures source { result.ref_ptr ≡ source_of self.now.on self.now.ext (place_in (lent_of self.now) at.0) }
    {
        if self.ok() {
            self.fetch_within(at)
        } else {
            &self.on[0..0]
        }
    }
}
