// What a session cost: its meters and its bill.
use session::Bench;
use std::fmt;
use std::fmt::{Display, Formatter, Write};

// What a bench has metered and billed.
#[derive(Clone, Copy)]
pub struct Costs(pub Bench);

// A figure of a bill, by its bits.
#[derive(Clone, Copy)]
struct Figure(u64);

// A figure's bits have its fraction below this.
const FRACTION: u64 = 4503599627370496;

// How many whole hundredths a figure of a session has, from its bits.
fn hundredths(bits: u64) -> u64 {
    let e = bits / FRACTION % 2048;
    if !(1012..=1074).contains(&e) {
        return 0;
    }
    (bits % FRACTION + FRACTION) * 100 >> (1075 - e) as u32
}

// To two places, cut, and exactly as the bits.
impl Display for Figure {
    fn fmt<W: Write>(&self, f: &mut Formatter<W>) -> fmt::Result {
        let bits = self.0;
        let whole = hundredths(bits) / 100;
        let places = hundredths(bits) % 100;
        write!(f, "{whole}.{places:02}  bits {bits:016X}")
    }
}

impl Display for Costs {
    fn fmt<W: Write>(&self, f: &mut Formatter<W>) -> fmt::Result {
        let Bench { meters, bill, .. } = self.0;
        let w = state::rest_words(meters, bill);
        let paid = Figure(u64::from(w[3]) | u64::from(w[4]) << 32);
        let misses = Figure(u64::from(w[5]) | u64::from(w[6]) << 32);
        writeln!(f, "\nThe meters and the bill")?;
        writeln!(f, "  fresh requests    {}", meters.fresh)?;
        writeln!(f, "  retries           {}", meters.retries)?;
        writeln!(f, "  words read        {}", meters.words)?;
        writeln!(f, "  nanoseconds paid  {paid}")?;
        writeln!(f, "  smoothed misses   {misses}")
    }
}
