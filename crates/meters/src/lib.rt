#![tactic(auto)]
// The meters: three counts, each of which stops at 4,294,967,295, and one posting to them.
ghost use Rattle.std.specs.Prelude.{◌≡◌};
ghost use Rattle.meters.specs.Posted.{no_meters, no_tally, posted};

// Where a meter stops.
pub const STOP: u32 = u32::MAX;

// Fresh requests and retries that got an address or a fault, and descriptor words read.
#[derive(Clone, Copy)]
pub struct Meters {
    pub fresh: u32,
    pub retries: u32,
    pub words: u32,
}

// What one call adds to each meter.
// Kept: no plainer as one type with Meters: what a call adds is not what the meters came to.
#[derive(Clone, Copy)]
pub struct Tally {
    pub fresh: u32,
    pub retries: u32,
    pub words: u32,
}

impl Tally {
    // A call that adds nothing.
    pub fn zero() -> Self
        ensures { result ≡ no_tally }
    {
        Self {
            fresh: 0,
            retries: 0,
            words: 0,
        }
    }
}

impl Meters {
    // Meters that have counted nothing.
    pub fn zero() -> Self
        ensures { result ≡ no_meters }
    {
        Self {
            fresh: 0,
            retries: 0,
            words: 0,
        }
    }

    // The meters after a call's tally.
    #[tactic(auto, unfolding(crate::specs::Posted::posted))]
    pub fn posted(self, tally: Tally) -> Meters
        ensures { result ≡ posted self tally }
    {
        Meters {
            fresh: self.fresh.saturating_add(tally.fresh),
            retries: self.retries.saturating_add(tally.retries),
            words: self.words.saturating_add(tally.words),
        }
    }
}

// A tally posted to the meters where they lie.
pub fn post(meters: &mut Meters, tally: Tally)
    ensures { meters.new ≡ posted meters.old tally }
{
    *meters = meters.posted(tally);
}

// The same for a caller that has the meters by value.
pub fn after(meters: Meters, tally: Tally) -> Meters
    ensures { result ≡ posted meters tally }
{
    let mut lent = meters;
    post(&mut lent, tally);
    lent
}
