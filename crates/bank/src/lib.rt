#![tactic(auto)]
// The slots as two lanes of register words, with the lock base and the victim.
pub mod slots;

ghost use Rattle.std.specs.Prelude.{◌≡◌};
ghost use Rattle.bank.specs.Slots.{bank_ok, fresh_bank};
ghost use Rattle.bank.specs.Victim.{next_slot, next_victim};

use lanes::{CAM_LIMIT, SLOTS};
use page::Words;

#[derive(Clone, Copy)]
pub struct Bank {
    pub cam: [u32; SLOTS],
    pub ram: [u32; SLOTS],
    pub lock: u8,
    pub victim: u8,
}

impl Bank {
    // Every slot empty, nothing locked.
    pub fn fresh() -> Bank
        ensures { result ≡ fresh_bank }
    {
        Bank {
            cam: [0; SLOTS],
            ram: [0; SLOTS],
            lock: 0,
            victim: 0,
        }
    }

    // Whether lock base, victim and every slot are in range.
    pub fn in_range(self) -> bool
        ensures { result ≡ bank_ok self }
    {
        ((self.lock as usize) < SLOTS)
            & ((self.victim as usize) < SLOTS)
            & lanes::cams_ok(&self.cam, CAM_LIMIT)
            & lanes::rams_ok(&self.ram)
    }
}

// The slot that the next fill takes.
pub(crate) fn next_slot(victim: u8, lock: u8) -> u8
    ensures { result ≡ next_slot victim lock }
{
    if victim < lock { lock } else { victim }
}

// The victim after a fill of a slot.
pub(crate) fn next_victim(at: u8, lock: u8) -> u8
    ensures { result ≡ next_victim at lock }
{
    if at as usize + 1 < SLOTS {
        at + 1
    } else {
        lock
    }
}
