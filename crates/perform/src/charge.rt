// The plain walk, each word charged to the bill as it is read.
ghost use Rattle.std.specs.Prelude.{◌≡◌};
ghost use Rattle.perform.specs.Names.{lent_of, word_posted, Room, read_within, after_second, by_first, walk_within};
ghost use Rattle.perform.specs.Charged.{charged_of, nothing_charged};

use crate::Charged;
use bill::Bill;
use memory::{Memories, Place, Source};
use page::{PhysicalAddress, VirtualAddress};
use prices::Prices;
use walk::{First, Table, Unfound};

// A walk that misses a word.
fn missing(bill: Bill) -> Charged
    ensures { result ≡ nothing_charged bill }
{
    Charged {
        found: Err(Unfound::Missing),
        words: 0,
        from: Place::Nowhere,
        bill,
    }
}

// The end of a walk whose second word stands at an address: the bill before it, and with the first word on it.
#[inline(always)]
fn second(
    memories: &Memories,
    prices: Prices,
    before: Bill,
    bill: Bill,
    table: Table,
    first: Source,
    at: PhysicalAddress,
) -> Charged
    requires { bill ≡ word_posted prices before first }
    ensures { result ≡ charged_of prices before (after_second table first at.0 (read_within (lent_of memories.now) at.0)) }
{
    let Some((w, place)) = walk::read_word(memories, at) else {
        return missing(before);
    };
    Charged {
        found: walk::descriptors::decode_second(table, w),
        words: 2,
        from: place,
        bill: bill.post_word(Source { at, place }, prices),
    }
}

// The rest of a walk by what its first word says.
#[tactic(auto, unfolding(walk::specs::Walk::coarse_at, walk::specs::Walk::fine_at))]
fn rest(
    memories: &Memories,
    prices: Prices,
    before: Bill,
    bill: Bill,
    va: VirtualAddress,
    first: Source,
    d: First,
) -> Charged
    requires { Room d × (bill ≡ word_posted prices before first) }
    ensures { result ≡ charged_of prices before (by_first (read_within (lent_of memories.now)) va.0 first d) }
{
    match d {
        First::Fault => Charged {
            found: Err(Unfound::NoPage),
            words: 1,
            from: first.place,
            bill,
        },
        First::Whole(p) => Charged {
            found: Ok(p),
            words: 1,
            from: first.place,
            bill,
        },
        First::Coarse(t) => {
            let at = PhysicalAddress(t.0 + 4 * (va.0 / 4096 % 256));
            second(memories, prices, before, bill, Table::Coarse, first, at)
        }
        First::Fine(t) => {
            let at = PhysicalAddress(t.0 + 4 * (va.0 / 1024 % 1024));
            second(memories, prices, before, bill, Table::Fine, first, at)
        }
    }
}

// The plain walk, each word charged to the bill as it is read.
#[tactic(auto, unfolding(walk::specs::Walk::walk_from, walk::specs::Walk::first_at, page::specs::Low::upper), using(walk::proofs::Laws::room))]
pub(crate) fn walk(
    memories: &Memories,
    prices: Prices,
    bill: Bill,
    base: PhysicalAddress,
    va: VirtualAddress,
) -> Charged
    ensures { result ≡ charged_of prices bill (walk_within (lent_of memories.now) base.0 va.0) }
{
    let at = PhysicalAddress(base.0 / 128 * 128 + 4 * (va.0 / 1048576 % 16));
    let Some((w, place)) = walk::read_word(memories, at) else {
        return missing(bill);
    };
    let first = Source { at, place };
    let posted = bill.post_word(first, prices);
    let d = walk::descriptors::decode_first(w);
    rest(memories, prices, bill, posted, va, first, d)
}
