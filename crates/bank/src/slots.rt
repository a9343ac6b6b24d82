// The slots in place: a bank, and beside each slot's words the lowest and the highest page number that it matches.
ghost use Rattle.std.specs.Prelude.{◌≡◌, ◌<◌, ℕ, true};
ghost use Rattle.bank.specs.Names.{cams_ok, cam_limit, limit, looked_up};
ghost use Rattle.bank.specs.Slots.{fresh_bank, slot_at};
ghost use Rattle.bank.specs.Changes.{stored_at, entry_filled, with_cams, locked_at, bank_flushed, bank_flushed_at};
ghost use Rattle.bank.specs.InPlace.{IsSpanned, Dropped};
ghost use Rattle.bank.specs.Spans.{low_of, high_of, in_span, sought, low_kept, high_kept};

use crate::{Bank, next_slot, next_victim};
use lanes::SLOTS;
use page::{VirtualAddress, Words};

// The page numbers that a slot matches, from the lowest to the highest.
#[derive(Clone, Copy)]
struct Span {
    low: u16,
    high: u16,
}

// A bank to be searched and changed, and beside each slot's words the lowest and the highest page number that it matches.
// Kept: no invariant, since these functions take any ends; what they promise is of slots with ends of their own.
#[derive(Clone, Copy)]
pub struct Slots {
    pub bank: Bank,
    pub lows: [u16; SLOTS],
    pub highs: [u16; SLOTS],
}

impl Span {
    // The span of a slot's CAM word; where it is not valid, from past all page numbers.
    fn of(cam: u32) -> Span
        ensures low { result.low ≡ low_of cam }
        ensures high { result.high ≡ high_of cam }
    {
        if cam / 4 % 2 == 0 {
            return Span {
                low: 16384,
                high: 0,
            };
        }
        let (low, last) = match cam % 4 {
            0 => (cam / 16384 % 16 * 1024, 1023),
            1 => (cam / 1024 % 256 * 64, 63),
            2 => (cam / 64 % 4096 * 4, 3),
            _ => (cam / 16 % 16384, 0),
        };
        Span {
            low: low as u16,
            high: (low + last) as u16,
        }
    }

    // The span of a slot that is as it was, or no longer valid.
    fn kept(self, cam: u32) -> Span
        ensures low { result.low ≡ low_kept cam self.low }
        ensures high { result.high ≡ high_kept cam self.high }
    {
        if cam / 4 % 2 == 0 {
            return Span {
                low: 16384,
                high: 0,
            };
        }
        self
    }

    // Whether a page number lies in it.
    fn has(self, x: u16) -> bool
        ensures { result ≡ in_span self.low self.high x }
    {
        (self.low <= x) & (x <= self.high)
    }
}

// The lowest slot whose span has a page number.
pub fn search(lows: &[u16; SLOTS], highs: &[u16; SLOTS], x: u16) -> Option<usize>
    ensures { result ≡ sought lows.now highs.now x }
{
    let mut best = SLOTS as u16;
    for i in 0..SLOTS {
        let span = Span {
            low: lows[i],
            high: highs[i],
        };
        let at = if span.has(x) { i as u16 } else { SLOTS as u16 };
        best = best.min(at);
    }
    if best < SLOTS as u16 {
        Some(best as usize)
    } else {
        None
    }
}

impl Slots {
    // The slots of a bank.
    pub fn of(bank: Bank) -> Slots
        ensures bank { result.bank ≡ bank }
        ensures ends { IsSpanned result }
    {
        let mut lows = [0u16; SLOTS];
        let mut highs = [0u16; SLOTS];
        for i in 0..SLOTS {
            let span = Span::of(bank.cam[i]);
            lows[i] = span.low;
            highs[i] = span.high;
        }
        Slots { bank, lows, highs }
    }

    // The lowest slot that matches an address, where the CAM words are in range.
    pub fn find(&self, va: VirtualAddress) -> Option<usize>
        ensures slot { (i : ℕ) → result ≡ Some i → i < 32 }
        ensures lowest { IsSpanned self.now → cams_ok cam_limit self.now.bank.cam ≡ true → va.0 < limit → result ≡ looked_up self.now.bank.cam va }
    {
        search(&self.lows, &self.highs, (va.0 / 1024 % 16384) as u16)
    }

    // The words of a slot; its number is below 32.
    pub fn words(&self, i: usize) -> Words
        ensures { i < 32 → result ≡ slot_at self.now.bank i }
    {
        let at = i % SLOTS;
        Words {
            cam: self.bank.cam[at],
            ram: self.bank.ram[at],
        }
    }

    // The words in a slot; its number is below 32.
    pub fn store(&mut self, at: u8, words: Words)
        ensures bank { at < 32 → self.new.bank ≡ stored_at self.old.bank at words }
        ensures ends { IsSpanned self.old → IsSpanned self.new }
    {
        let i = at as usize % SLOTS;
        let span = Span::of(words.cam);
        self.bank.cam[i] = words.cam;
        self.bank.ram[i] = words.ram;
        self.lows[i] = span.low;
        self.highs[i] = span.high;
    }

    // What a call puts into the slots.
    pub fn take(&mut self, fill: Option<Words>)
        ensures bank { self.old.bank.lock < 32 → self.old.bank.victim < 32 → self.new.bank ≡ entry_filled self.old.bank fill }
        ensures ends { IsSpanned self.old → IsSpanned self.new }
    {
        if let Some(words) = fill {
            let at = next_slot(self.bank.victim, self.bank.lock);
            self.store(at, words);
            self.bank.victim = next_victim(at, self.bank.lock);
        }
    }

    // The lock base and the victim set.
    pub fn set_lock(&mut self, lock: u8, victim: u8)
        ensures bank { self.new.bank ≡ locked_at self.old.bank lock victim }
        ensures ends { IsSpanned self.old → IsSpanned self.new }
    {
        self.bank.lock = lock;
        self.bank.victim = victim;
    }

    // The CAM lane after a flush, each word of which is as it was or no longer valid.
    fn renew(&mut self, cam: [u32; SLOTS])
        requires { Dropped self.old.bank.cam cam }
        ensures bank { self.new.bank ≡ with_cams self.old.bank cam }
        ensures ends { IsSpanned self.old → IsSpanned self.new }
    {
        self.bank.cam = cam;
        for i in 0..SLOTS {
            let span = Span {
                low: self.lows[i],
                high: self.highs[i],
            };
            let kept = span.kept(cam[i]);
            self.lows[i] = kept.low;
            self.highs[i] = kept.high;
        }
    }

    // A global flush.
    pub fn flush(&mut self)
        ensures bank { self.new.bank ≡ bank_flushed self.old.bank }
        ensures ends { IsSpanned self.old → IsSpanned self.new }
    {
        self.renew(lanes::flush_all(self.bank.cam));
    }

    // An entry flush at an address.
    pub fn flush_at(&mut self, va: VirtualAddress)
        ensures bank { self.new.bank ≡ bank_flushed_at self.old.bank va }
        ensures ends { IsSpanned self.old → IsSpanned self.new }
    {
        self.renew(lanes::flush_entry(self.bank.cam, va));
    }

    // Every slot empty.
    pub fn clear(&mut self)
        ensures bank { self.new.bank ≡ fresh_bank }
        ensures ends { IsSpanned self.new }
    {
        self.bank = Bank::fresh();
        self.lows = [16384; SLOTS];
        self.highs = [0; SLOTS];
    }
}
