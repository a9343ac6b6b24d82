#![tactic(auto)]
// The walk bill: a running total and a smoothed miss figure in f64, and what it keeps of each memory.
mod figures;

ghost use Rattle.std.specs.Prelude.{◌≡◌};
ghost use Rattle.bill.specs.Bill.{bill_ok, word_posted, attempt_posted, seen_posted, fresh_bill};

use memory::{Place, Source};
use prices::{Prices, Side};

// The running total in nanoseconds, the smoothed miss figure, and the two sides.
#[derive(Clone, Copy)]
pub struct Bill {
    pub total: f64,
    pub misses: f64,
    pub onchip: Side,
    pub external: Side,
}

// What an attempt did with the slots: it looked in none, one matched, or none did.
#[derive(Clone, Copy)]
pub enum Seen {
    Nothing,
    Match,
    NoMatch,
}

impl Bill {
    // All zero with no rows.
    pub fn fresh() -> Self
        ensures { result ≡ fresh_bill }
    {
        Self {
            total: 0.0,
            misses: 0.0,
            onchip: Side::fresh(),
            external: Side::fresh(),
        }
    }

    // Whether both figures are finite.
    #[tactic(auto, using(crate::proofs::Finite::figures))]
    pub fn ok(self) -> bool
        ensures { result ≡ bill_ok self }
    {
        self.total.is_finite() && self.misses.is_finite()
    }

    // The bill after a word that was read, by the price of the memory that holds it.
    #[tactic(auto, unfolding(crate::specs::Bill::place_posted))]
    pub fn post_word(self, source: Source, prices: Prices) -> Bill
        ensures { result ≡ word_posted prices self source }
    {
        let row = prices::row_of(source.at);
        match source.place {
            Place::OnChip(_) => Bill {
                total: self.total + prices::word_price(prices.onchip, self.onchip, row),
                onchip: self.onchip.read(row),
                ..self
            },
            Place::External(_) => Bill {
                total: self.total + prices::word_price(prices.external, self.external, row),
                external: self.external.read(row),
                ..self
            },
            Place::Nowhere => self,
        }
    }

    // The bill after an attempt that matched no slot, or one.
    #[tactic(auto, unfolding(crate::specs::Bill::attempt_posted))]
    pub fn post_attempt(self, missed: bool) -> Bill
        ensures { result ≡ attempt_posted self missed }
    {
        Bill {
            misses: figures::smooth(self.misses, missed),
            ..self
        }
    }

    // The bill after an attempt, by what it did with the slots.
    pub fn post_seen(self, seen: Seen) -> Bill
        ensures { result ≡ seen_posted self seen }
    {
        match seen {
            Seen::Nothing => self,
            Seen::Match => self.post_attempt(false),
            Seen::NoMatch => self.post_attempt(true),
        }
    }
}
