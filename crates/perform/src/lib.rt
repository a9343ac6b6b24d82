#![tactic(auto)]
// A plan performed: on the slots in place, on the rest of the parts by value.
ghost use Rattle.std.specs.Prelude.{◌≡◌};
ghost use Rattle.perform.specs.Names.{IsSpanned, lent_of, setting, setting_at};
ghost use Rattle.perform.specs.Performed.{performed, done_of, uncharged_performed, quiet_performed, Fit};

use attempt::Attempt;
use bank::slots::Slots;
use bill::Bill;
use decision::{Said, ShiftError};
use memory::{Memories, Place};
use meters::Tally;
use page::Words;
use plan::Plan;
use prices::Prices;
use registers::{Answer, Entry, Registers, Stall, offsets};
use walk::{Page, Unfound};

mod attempt;
mod charge;

// What a walk finds, how many words it read, where the last one lies, and the bill after them.
#[derive(Clone, Copy)]
pub(crate) struct Charged {
    found: Result<Page, Unfound>,
    words: u32,
    from: Place,
    bill: Bill,
}

// What an attempt puts into the slots, leaves and says.
#[derive(Clone, Copy)]
pub(crate) struct After {
    fill: Option<Words>,
    pending: Option<Stall>,
    bill: Bill,
    tally: Tally,
    answer: Answer,
    from: Place,
}

// What a plan leaves beside the slots, and says: from is where the last word of a walk lies, nowhere where none was made.
#[derive(Clone, Copy)]
pub struct Performed {
    pub registers: Registers,
    pub pending: Option<Stall>,
    pub bill: Bill,
    pub tally: Tally,
    pub said: Said,
    pub from: Place,
}

// A register set, by its offset and the bits that are kept.
#[tactic(auto, unfolding(page::specs::Pick::pick, plan::specs::Plans::setting_at))]
fn set(r: Registers, offset: u32, v: u16) -> Registers
    ensures { result ≡ setting r (setting_at offset v) }
{
    let mut s = r;
    match offset {
        offsets::CONTROL => s.control = v,
        offsets::BASE_HIGH => s.base.0 = (v as u32) * 65536 + r.base.0 % 65536,
        offsets::BASE_LOW => s.base.0 = r.base.0 / 65536 * 65536 + (v as u32),
        offsets::CAM_HIGH => s.staged.camhi = v,
        offsets::CAM_LOW => s.staged.camlo = v,
        offsets::RAM_HIGH => s.staged.ramhi = v,
        _ => s.staged.ramlo = v,
    }
    s
}

// What charges nothing.
fn uncharged(
    registers: Registers,
    pending: Option<Stall>,
    bill: Bill,
    said: Said,
    from: Place,
) -> Performed
    ensures { result ≡ uncharged_performed registers pending bill said from }
{
    Performed {
        registers,
        pending,
        bill,
        tally: Tally::zero(),
        said,
        from,
    }
}

// What reads no word.
fn quietly(registers: Registers, pending: Option<Stall>, bill: Bill, answer: Answer) -> Performed
    ensures { result ≡ quiet_performed registers pending bill answer }
{
    uncharged(
        registers,
        pending,
        bill,
        Said::Answered(answer),
        Place::Nowhere,
    )
}

// What is planned, done. For a caller that has tried the memories.
pub fn perform(
    plan: Plan,
    slots: &mut Slots,
    r: Registers,
    pending: Option<Stall>,
    bill: Bill,
    memories: &Memories,
    prices: Prices,
) -> Performed
    ensures done { IsSpanned slots.old → Fit r.control slots.old.bank.cam slots.old.bank.lock slots.old.bank.victim plan
        → done_of result slots.new.bank ≡ performed (lent_of memories.now) prices bill r slots.old.bank pending plan }
    ensures ends { IsSpanned slots.old → IsSpanned slots.new }
{
    match plan {
        Plan::Attempt(access, reason, va) => {
            let attempt = Attempt {
                reason,
                va,
                access,
                pending,
                bill,
                prices,
            };
            let after = attempt.made(slots, memories, r.control, r.base);
            slots.take(after.fill);
            Performed {
                registers: attempt.registers(r, after.answer),
                pending: after.pending,
                bill: after.bill,
                tally: after.tally,
                said: Said::Answered(after.answer),
                from: after.from,
            }
        }
        Plan::Refused(k) => quietly(r, pending, bill, Answer::Refused(k)),
        Plan::Done => quietly(r, pending, bill, Answer::Done),
        Plan::Show(offset) => {
            let shown = registers::values::value_at(
                offset,
                r,
                slots.bank.lock,
                slots.bank.victim,
                pending,
            );
            quietly(r, pending, bill, shown)
        }
        Plan::Set(offset, v) => quietly(set(r, offset, v), pending, bill, Answer::Done),
        Plan::Lock(lock, victim) => {
            slots.set_lock(lock, victim);
            quietly(r, pending, bill, Answer::Done)
        }
        Plan::Flush => {
            slots.flush();
            quietly(r, pending, bill, Answer::Done)
        }
        Plan::FlushEntry => {
            slots.flush_at(registers::cam_address(r.staged));
            quietly(r, pending, bill, Answer::Done)
        }
        Plan::Load => {
            slots.store(slots.bank.victim, Words::from(r.staged));
            quietly(r, pending, bill, Answer::Done)
        }
        Plan::Copy => {
            let words = slots.words(slots.bank.victim as usize);
            let mut s = r;
            s.copied = Entry::from(words);
            quietly(s, pending, bill, Answer::Done)
        }
        Plan::Reset => {
            slots.clear();
            quietly(Registers::fresh(), None, bill, Answer::Done)
        }
        Plan::Drop => quietly(r, None, bill, Answer::Done),
        Plan::Shift(va) => {
            let walked = walk::walk_within(memories, r.base, va);
            let shift = decision::shift_by(walked.found, va);
            let from = memory::last_place(walked.reads);
            uncharged(r, pending, bill, Said::Reported(shift), from)
        }
        Plan::Unreported(k) => {
            let refused = Said::Reported(Err(ShiftError::Refused(k)));
            uncharged(r, pending, bill, refused, Place::Nowhere)
        }
    }
}
