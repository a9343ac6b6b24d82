// An attempt that nothing but 3 refuses, by the slots as they lie: what it puts into them and all that it leaves besides.
ghost use Rattle.std.specs.Prelude.{◌≡◌};
ghost use Rattle.perform.specs.Names.{lent_of, walk_within};
ghost use Rattle.perform.specs.Performed.{tally_for, registers_for, decided_for};
ghost use Rattle.perform.specs.Attempts.{fetches_ahead, Searchable, after_of, wordless_of, walked_of, matched_for, missed_for, fault_for, answer_for};

use crate::{After, Charged, charge};
use bank::slots::Slots;
use bill::{Bill, Seen};
use decision::Decision;
use memory::{Memories, Place};
use meters::Tally;
use page::{Access, PhysicalAddress, VirtualAddress, Words};
use plan::Reason;
use prices::Prices;
use registers::{Answer, Fault, Registers, Stall};
use walk::Unfound;

// What an attempt is for, its address and access, what is pending before it, and the bill and the prices of its words.
#[derive(Clone, Copy)]
pub(crate) struct Attempt {
    pub(crate) reason: Reason,
    pub(crate) va: VirtualAddress,
    pub(crate) access: Access,
    pub(crate) pending: Option<Stall>,
    pub(crate) bill: Bill,
    pub(crate) prices: Prices,
}

impl Attempt {
    // Whether it is a prefetch.
    fn fetches_ahead(self) -> bool
        ensures { result ≡ fetches_ahead self.reason }
    {
        matches!(self.reason, Reason::Prefetch)
    }

    // What it adds to the meters.
    fn tally(self, words: u32, answer: Answer) -> Tally
        ensures { result ≡ tally_for self.reason words answer }
    {
        match self.reason {
            Reason::Request => decision::tally_of(false, answer, words),
            Reason::Retry => decision::tally_of(true, answer, words),
            Reason::Prefetch => Tally {
                fresh: 0,
                retries: 0,
                words,
            },
        }
    }

    // The registers after it.
    pub(crate) fn registers(self, r: Registers, answer: Answer) -> Registers
        ensures { result ≡ registers_for self.reason r self.va answer }
    {
        let mut s = r;
        if self.fetches_ahead() {
            s.prefetch = decision::prefetch_kept(
                (self.va.0 / 1024 % 16384) as u16,
                r.prefetch,
                answer,
            );
        }
        s
    }

    // What it leaves where it reads no word.
    fn wordless(self, d: Decision) -> After
        ensures { result ≡ wordless_of self.bill self.reason self.pending self.va self.access d }
    {
        After {
            fill: None,
            pending: decision::settle(self.pending, d.answer, self.va, self.access),
            bill: self.bill.post_seen(d.seen),
            tally: self.tally(0, d.answer),
            answer: d.answer,
            from: Place::Nowhere,
        }
    }

    // What a matching slot's words come to.
    #[tactic(auto, unfolding(page::specs::Pick::pick))]
    fn matched(self, words: Words) -> Decision
        ensures { result ≡ matched_for self.reason words.cam words.ram self.va self.access }
    {
        if self.fetches_ahead() {
            decision::plain(Answer::Done, Seen::Nothing)
        } else {
            decision::by_match(words.cam, words.ram, self.va, self.access)
        }
    }

    // A bill after an attempt that matched no slot.
    #[tactic(auto, unfolding(page::specs::Pick::pick))]
    fn missed(self, bill: Bill) -> Bill
        ensures { result ≡ missed_for self.reason bill }
    {
        if self.fetches_ahead() {
            bill
        } else {
            bill.post_attempt(true)
        }
    }

    // The fault of a walk that finds no page.
    #[tactic(auto, unfolding(page::specs::Pick::pick))]
    fn fault(self) -> Fault
        ensures { result ≡ fault_for self.reason }
    {
        if self.fetches_ahead() {
            Fault::Prefetch
        } else {
            Fault::Translation
        }
    }

    // The answer of a walk that finds a page.
    #[tactic(auto, unfolding(page::specs::Pick::pick))]
    fn answer(self, bits: u32, at: PhysicalAddress) -> Answer
        ensures { result ≡ answer_for self.reason bits at self.access }
    {
        if self.fetches_ahead() {
            Answer::Done
        } else {
            decision::by_access(bits, at, self.access)
        }
    }

    // What it leaves where it walked.
    fn walked(self, w: Charged) -> After
        ensures { result ≡ walked_of self.bill self.reason self.pending self.va self.access w.words w.from w.bill w.found }
    {
        let bill = self.missed(w.bill);
        match w.found {
            Err(Unfound::Missing) => self.wordless(decision::plain(
                Answer::Refused(3),
                Seen::Nothing,
            )),
            Err(Unfound::NoPage) => {
                let fault = self.fault();
                let answer = Answer::Fault(fault);
                After {
                    fill: None,
                    pending: Some(Stall {
                        fault,
                        at: self.va,
                        access: self.access,
                    }),
                    bill,
                    tally: self.tally(w.words, answer),
                    answer,
                    from: w.from,
                }
            }
            Ok(p) => {
                let answer = self.answer(p.access, walk::descriptors::physical(p, self.va));
                After {
                    fill: Some(page::made(p.kind, p.frame, p.access, self.va)),
                    pending: decision::settle(self.pending, answer, self.va, self.access),
                    bill,
                    tally: self.tally(w.words, answer),
                    answer,
                    from: w.from,
                }
            }
        }
    }

    // What it leaves, for a caller that has tried everything but 3.
    pub(crate) fn made(
        self,
        slots: &Slots,
        memories: &Memories,
        control: u16,
        base: PhysicalAddress,
    ) -> After
        ensures { Searchable slots.now control self.reason self.va
            → result
            ≡ after_of self.prices self.bill self.reason self.pending self.va self.access
            (decided_for self.reason (walk_within (lent_of memories.now) base.0 self.va.0)
            control slots.now.bank.cam slots.now.bank.ram self.va self.access) }
    {
        if !registers::is_on(control) {
            let address = Answer::Address(PhysicalAddress(self.va.0));
            return self.wordless(decision::plain(address, Seen::Nothing));
        }
        if let Some(i) = slots.find(self.va) {
            return self.wordless(self.matched(slots.words(i)));
        }
        if !registers::is_walking(control) {
            return self.wordless(decision::plain(Answer::Fault(Fault::Miss), Seen::NoMatch));
        }
        self.walked(charge::walk(memories, self.prices, self.bill, base, self.va))
    }
}
