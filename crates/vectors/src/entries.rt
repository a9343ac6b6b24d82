// What `bank` answers for values worked out by hand from the paper: the file `stdout` has them, in hexadecimal.
// A large page at 010000 with both accesses has the words 0405 and 10020300, a tiny page there, read only, the words
// 0407 and 10000E00, and 040F where it is preserved.
ghost use Rattle.std.specs.Prelude.{◌<◌};

use bank::Bank;
use bank::slots::Slots;
use lanes::SLOTS;
use page::{VirtualAddress, Words};

// The large page.
const LARGE: Words = Words {
    cam: 0x0405,
    ram: 0x10020300,
};

// The tiny page.
const TINY: Words = Words {
    cam: 0x0407,
    ram: 0x10000E00,
};

// The tiny page, preserved.
const PRESERVED: Words = Words {
    cam: 0x040F,
    ..TINY
};

pub(crate) fn show_all() {
    fills();
    locked();
    flushes();
    ranges();
}

// Slots that were full, cleared; with a lock base and a victim.
fn empty(lock: u8, victim: u8) -> Slots {
    let mut s = Slots {
        bank: Bank {
            cam: [0x0405; SLOTS],
            ram: [0x10020300; SLOTS],
            lock: 0,
            victim: 0,
        },
        lows: [0; SLOTS],
        highs: [0x3FFF; SLOTS],
    };
    s.clear();
    s.set_lock(lock, victim);
    s
}

// An address and the slot that matches it, or 100 for none; then the lock base, the victim, and whether the bank is
// in range.
fn state(s: &Slots, va: u32) {
    let found = s.find(VirtualAddress(va));
    show::text(b"bank");
    show::numbers(va as u64, found.map_or(0x100, |i| i as u64));
    show::numbers(s.bank.lock as u64, s.bank.victim as u64);
    show::verdict(s.bank.in_range());
}

// A slot's number and its CAM and RAM words.
fn slot(s: &Slots, i: usize)
    requires { i < 32 }
{
    let w = s.words(i);
    show::triple(b"slot", i as u32, w.cam, w.ram);
}

// A fill, and the slots then searched for an address.
fn fill(s: &mut Slots, words: Words, va: u32) {
    s.take(Some(words));
    state(s, va);
}

// Fills go to slots 0 and 1, and the victim follows; of two slots that match, the lower one is found.
fn fills() {
    let mut s = empty(0, 0);
    state(&s, 0x010000);
    fill(&mut s, LARGE, 0x012345);
    fill(&mut s, TINY, 0x010000);
    slot(&s, 1);
    let mut two = empty(0, 0);
    fill(&mut two, TINY, 0x010000);
    fill(&mut two, LARGE, 0x010000);
    two.take(None);
    state(&Slots::of(two.bank), 0x010400);
}

// Lock base 31, victim 0: the fill goes to slot 31 and the victim to the lock base. A load goes to the victim.
fn locked() {
    let mut last = empty(31, 0);
    fill(&mut last, LARGE, 0x010000);
    slot(&last, 0);
    let mut s = empty(4, 9);
    s.store(9, LARGE);
    state(&s, 0x010000);
    slot(&s, 9);
}

// Slot 0 preserved, slot 1 not, both below the lock base: a global flush, an entry flush of both, and one of slot 1.
fn flushes() {
    let mut s = empty(0, 0);
    fill(&mut s, PRESERVED, 0x010000);
    fill(&mut s, LARGE, 0x010000);
    s.set_lock(2, 2);
    both(s, |s| s.flush());
    both(s, |s| s.flush_at(VirtualAddress(0x010000)));
    both(s, |s| s.flush_at(VirtualAddress(0x010400)));
}

// Slots 0 and 1, after a change.
fn both<F: FnOnce(&mut Slots)>(slots: Slots, change: F)
    requires { F.IsAlwaysCallable change }
{
    let mut s = slots;
    change(&mut s);
    slot(&s, 0);
    slot(&s, 1);
}

// Victim 31 and 32, lock base 32; a CAM word of 19 bits, a RAM word with bit 7.
fn ranges() {
    state(&empty(0, 31), 0x010000);
    state(&empty(0, 32), 0x010000);
    state(&empty(32, 0), 0x010000);
    let beyond = Words {
        cam: 0x40000,
        ram: 0,
    };
    fill(&mut empty(0, 0), beyond, 0x010000);
    let odd = Words { cam: 0, ram: 0x80 };
    fill(&mut empty(0, 0), odd, 0x010000);
}
