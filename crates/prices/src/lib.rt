#![tactic(auto)]
// What a word costs: a memory's price, flat or by row, and what is kept of a memory to tell its row.
ghost use Rattle.std.specs.Prelude.{◌≡◌};
ghost use Rattle.prices.specs.Prices.{figure_ok, price_ok, prices_ok, row_of, row_price, word_price, side_read, fresh_side};

use page::PhysicalAddress;

// Rows are this many bytes of physical address.
pub const ROW_BYTES: u32 = 1024;

// A memory's price for a word, in nanoseconds: always the same, or by whether the row is the last one read.
#[derive(Clone, Copy)]
pub enum Price {
    Flat(f64),
    Row { same: f64, fresh: f64 },
}

// The prices of the two memories.
#[derive(Clone, Copy)]
pub struct Prices {
    pub onchip: Price,
    pub external: Price,
}

// What the bill keeps of one memory.
#[derive(Clone, Copy)]
pub struct Side {
    pub last: Option<u32>,
}

// Whether a figure is from 0 to 4,096.
#[tactic(auto, using(page::proofs::Picks::tests), unfolding(crate::specs::Prices::figure_ok))]
pub fn figure_ok(x: f64) -> bool
    ensures { result ≡ figure_ok x }
{
    0.0 <= x && x <= 4096.0
}

// Whether every figure of a price is.
#[tactic(auto, using(page::proofs::Picks::tests), unfolding(crate::specs::Prices::every))]
pub fn price_ok(p: Price) -> bool
    ensures { result ≡ price_ok p }
{
    match p {
        Price::Flat(x) => figure_ok(x),
        Price::Row { same, fresh } => figure_ok(same) && figure_ok(fresh),
    }
}

// Whether both prices are.
#[tactic(auto, using(page::proofs::Picks::tests))]
pub fn prices_ok(prices: Prices) -> bool
    ensures { result ≡ prices_ok prices }
{
    price_ok(prices.onchip) && price_ok(prices.external)
}

// The row of an address.
pub fn row_of(at: PhysicalAddress) -> u32
    ensures { result ≡ row_of at }
{
    at.0 / ROW_BYTES
}

// The price of a word by the row last read.
#[tactic(auto, using(page::proofs::Picks::tests), unfolding(crate::specs::Prices::row_price))]
fn row_price(same: f64, fresh: f64, last: Option<u32>, row: u32) -> f64
    ensures { result ≡ row_price same fresh last row }
{
    match last {
        None => fresh,
        Some(k) if k == row => same,
        Some(_) => fresh,
    }
}

// The price of a word by what the bill keeps of its memory.
#[tactic(auto, using(page::proofs::Picks::tests), unfolding(crate::specs::Prices::word_price))]
pub fn word_price(p: Price, side: Side, row: u32) -> f64
    ensures { result ≡ word_price p side row }
{
    match p {
        Price::Flat(x) => x,
        Price::Row { same, fresh } => row_price(same, fresh, side.last, row),
    }
}

impl Side {
    // Nothing was read yet.
    pub fn fresh() -> Self
        ensures { result ≡ fresh_side }
    {
        Side { last: None }
    }

    // A word of a row was read.
    pub fn read(self, row: u32) -> Side
        ensures { result ≡ side_read self row }
    {
        Side { last: Some(row) }
    }
}
