#![tactic(auto)]
// What an access and a matching slot come to, what an answer leaves, and the shift report.
ghost use Rattle.std.specs.Prelude.{◌≡◌};
ghost use Rattle.decision.specs.Decisions.{by_access, plainly, by_match, settled, metered_once, tally_of};
ghost use Rattle.decision.specs.Prefetches.{prefetch_kept, unshifted, shift_by};

use bill::Seen;
use memory::Reads;
use meters::Tally;
use page::{Access, PhysicalAddress, VirtualAddress, Words};
use registers::{Answer, Fault, Stall, refusals};
use walk::{Page, Unfound};

// What an attempt comes to: its answer, what it puts into the slots, the words it read and what it did with the slots.
#[derive(Clone, Copy)]
pub struct Decision {
    pub answer: Answer,
    pub fill: Option<Words>,
    pub reads: Reads,
    pub seen: Seen,
}

// Why there is no shift to report: a translation fault, or a refusal.
// Kept: `run::answers::put_said` takes a report with any number of a refusal.
#[derive(Clone, Copy)]
pub enum ShiftError {
    Fault,
    Refused(u8),
}

// What a call says.
#[derive(Clone, Copy)]
pub enum Said {
    Answered(Answer),
    Reported(Result<i64, ShiftError>),
}

// A page's byte, or a permission fault.
#[tactic(auto, using(page::proofs::Picks::pick_yes, page::proofs::Picks::pick_no), unfolding(crate::specs::Decisions::by_access))]
pub fn by_access(bits: u32, at: PhysicalAddress, a: Access) -> Answer
    ensures { result ≡ by_access bits at a }
{
    if page::permitted(bits, a) {
        Answer::Address(at)
    } else {
        Answer::Fault(Fault::Permission)
    }
}

// A decision that reads no word and fills nothing.
pub fn plain(answer: Answer, seen: Seen) -> Decision
    ensures { result ≡ plainly answer seen }
{
    Decision {
        answer,
        fill: None,
        reads: Reads::Nothing,
        seen,
    }
}

// What a matching slot's words come to.
pub fn by_match(cam: u32, ram: u32, va: VirtualAddress, a: Access) -> Decision
    ensures { result ≡ by_match cam ram va a }
{
    let at = page::translated(cam, ram, va);
    plain(by_access(page::access_of(ram), at, a), Seen::Match)
}

// The pending fault after an answer.
pub fn settle(
    pending: Option<Stall>,
    answer: Answer,
    at: VirtualAddress,
    access: Access,
) -> Option<Stall>
    ensures { result ≡ settled at access pending answer }
{
    match answer {
        Answer::Address(_) => None,
        Answer::Fault(fault) => Some(Stall { fault, at, access }),
        _ => pending,
    }
}

// One request or retry, and the words it read.
fn metered(again: bool, words: u32) -> Tally
    ensures { result ≡ metered_once again words }
{
    if again {
        Tally {
            fresh: 0,
            retries: 1,
            words,
        }
    } else {
        Tally {
            fresh: 1,
            retries: 0,
            words,
        }
    }
}

// What an attempt adds to the meters.
pub fn tally_of(again: bool, answer: Answer, words: u32) -> Tally
    ensures { result ≡ tally_of again words answer }
{
    match answer {
        Answer::Address(_) | Answer::Fault(_) => metered(again, words),
        _ => Tally::zero(),
    }
}

// The prefetch register after an answer.
pub fn prefetch_kept(v: u16, old: u16, answer: Answer) -> u16
    ensures { result ≡ prefetch_kept v old answer }
{
    match answer {
        Answer::Refused(_) => old,
        _ => v,
    }
}

// A walk without its page, as a shift report says it.
impl From<Unfound> for ShiftError {
    ghost from_gives = { λ u e. e ≡ unshifted u };

    fn from(u: Unfound) -> ShiftError {
        match u {
            Unfound::Missing => ShiftError::Refused(refusals::NO_WORD),
            Unfound::NoPage => ShiftError::Fault,
        }
    }
}

// The shift of an address by what its plain walk found.
pub fn shift_by(found: Result<Page, Unfound>, va: VirtualAddress) -> Result<i64, ShiftError>
    ensures { result ≡ shift_by va found }
{
    let page = found?;
    Ok(walk::descriptors::distance(walk::descriptors::physical(page, va), va))
}
