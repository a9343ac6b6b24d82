// The smoothing of misses.
ghost use Rattle.std.specs.Prelude.{◌≡◌};
ghost use Rattle.bill.specs.Figures.{miss_figure, smoothed};

// What the smoothing takes an attempt for: 1 on no match, else 0.
fn outcome(missed: bool) -> f64
    ensures { result ≡ miss_figure missed }
{
    if missed { 1.0 } else { 0.0 }
}

// The miss figure after an attempt.
#[tactic(auto, unfolding(crate::specs::Figures::smoothed))]
pub(crate) fn smooth(mean: f64, missed: bool) -> f64
    ensures { result ≡ smoothed mean missed }
{
    mean + (outcome(missed) - mean) * 0.125
}
