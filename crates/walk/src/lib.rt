#![tactic(auto)]
// The plain walk of two lent memories.
pub mod descriptors;
mod second;

ghost use Rattle.std.specs.Prelude.{◌≡◌};
ghost use Rattle.walk.specs.Names.{lent_of};
ghost use Rattle.walk.specs.Descriptors.{first_of};
ghost use Rattle.walk.specs.Walk.{missing, ended, read_within, after_second, by_first, walk_in, walk_within};

use memory::{Memories, Place, Reads, Source};
use page::{Kind, PhysicalAddress, VirtualAddress};

// What a walk finds, and the words that it read: none where a word is missing.
#[derive(Clone, Copy)]
pub struct Walked {
    pub found: Result<Page, Unfound>,
    pub reads: Reads,
}

// A page that a descriptor gives.
#[derive(Clone, Copy)]
pub struct Page {
    pub kind: Kind,
    pub frame: PhysicalAddress,
    pub access: u32,
}

// A first-level word.
#[derive(Clone, Copy)]
pub enum First {
    Fault,
    Coarse(PhysicalAddress),
    Whole(Page),
    Fine(PhysicalAddress),
}

// The two kinds of second-level table.
#[derive(Clone, Copy)]
pub enum Table {
    Coarse,
    Fine,
}

// Why a walk finds no page.
#[derive(Clone, Copy)]
pub enum Unfound {
    NoPage,
    Missing,
}

// A walk that misses a word.
fn missing() -> Walked
    ensures { result ≡ missing }
{
    Walked {
        found: Err(Unfound::Missing),
        reads: Reads::Nothing,
    }
}

// A walk that ends with its first word.
fn ended(found: Result<Page, Unfound>, first: Source) -> Walked
    ensures { result ≡ ended found first }
{
    Walked {
        found,
        reads: Reads::One(first),
    }
}

// The word at an address, and the place that holds it.
#[tactic(auto, unfolding(crate::specs::Walk::read_within))]
pub fn read_word(memories: &Memories, at: PhysicalAddress) -> Option<(u32, Place)>
    ensures { result ≡ read_within (lent_of memories.now) at.0 }
{
    match memories.locate_within(at) {
        Place::Nowhere => None,
        place => Some((wire::word_of(memories.fetch_within(at)), place)),
    }
}

// The end of a walk whose second word stands at an address.
#[inline(always)]
fn second_level(memories: &Memories, table: Table, first: Source, at: PhysicalAddress) -> Walked
    ensures { result ≡ after_second table first at.0 (read_within (lent_of memories.now) at.0) }
{
    match read_word(memories, at) {
        None => missing(),
        Some((w, place)) => Walked {
            found: descriptors::decode_second(table, w),
            reads: Reads::Two(first, Source { at, place }),
        },
    }
}

// The rest of a walk whose first word is w.
#[tactic(auto, unfolding(crate::specs::Walk::coarse_at, crate::specs::Walk::fine_at))]
fn first_level(memories: &Memories, va: VirtualAddress, first: Source, w: u32) -> Walked
    ensures { result ≡ by_first (read_within (lent_of memories.now)) va.0 first (first_of w) }
{
    match descriptors::decode_first(w) {
        First::Fault => ended(Err(Unfound::NoPage), first),
        First::Whole(p) => ended(Ok(p), first),
        First::Coarse(t) => {
            let at = PhysicalAddress(t.0 + 4 * (va.0 / 4096 % 256));
            second_level(memories, Table::Coarse, first, at)
        }
        First::Fine(t) => {
            let at = PhysicalAddress(t.0 + 4 * (va.0 / 1024 % 1024));
            second_level(memories, Table::Fine, first, at)
        }
    }
}

// The plain walk from a base, for a caller that has tried the memories.
#[tactic(auto, unfolding(crate::specs::Walk::walk_from, crate::specs::Walk::first_at, page::specs::Low::upper))]
pub fn walk_within(memories: &Memories, base: PhysicalAddress, va: VirtualAddress) -> Walked
    ensures { result ≡ walk_within (lent_of memories.now) base.0 va.0 }
{
    let at = PhysicalAddress(base.0 / 128 * 128 + 4 * (va.0 / 1048576 % 16));
    match read_word(memories, at) {
        None => missing(),
        Some((w, place)) => first_level(memories, va, Source { at, place }, w),
    }
}

// The plain walk from a base; under refusal 4 every word is missing.
#[tactic(auto, using(crate::proofs::Walks::tried))]
pub fn walk(memories: &Memories, base: PhysicalAddress, va: VirtualAddress) -> Walked
    ensures { result ≡ walk_in (lent_of memories.now) base.0 va.0 }
{
    if memories.ok() {
        walk_within(memories, base, va)
    } else {
        missing()
    }
}
