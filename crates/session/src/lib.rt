#![tactic(auto)]
// A session on the bench: a device, a bill and meters, and one call after another.
ghost use Rattle.std.specs.Prelude.{◌≡◌};
ghost use Rattle.memory.specs.Memory.{lent_of};
ghost use Rattle.unit.specs.Machine.{step_out, step_told};
ghost use Rattle.session.specs.Bench.{fresh_bench, made, stepped};

use bill::Bill;
use calls::Call;
use decision::Said;
use memory::{Memories, Place};
use meters::{Meters, Tally};
use prices::Prices;
use registers::Answer;
use unit::{Device, Outcome, Told};

// A device with the bill and the meters that its calls are posted to.
#[derive(Clone, Copy)]
pub struct Bench {
    pub device: Device,
    pub bill: Bill,
    pub meters: Meters,
}

// The bench after a call, what the call said, and where the last word of its walk lies, nowhere where it made none.
#[derive(Clone, Copy)]
pub struct Stepped {
    pub bench: Bench,
    pub said: Said,
    pub from: Place,
}

// The bench after a call that may walk.
fn posted(meters: Meters, outcome: Outcome) -> Stepped
    ensures { result ≡ made meters (step_out outcome) }
{
    Stepped {
        bench: Bench {
            device: outcome.device,
            bill: outcome.bill,
            meters: meters::after(meters, outcome.tally),
        },
        said: Said::Answered(outcome.answer),
        from: outcome.from,
    }
}

// The bench after a call that never walks.
fn kept(meters: Meters, bill: Bill, told: Told) -> Stepped
    ensures { result ≡ made meters (step_told bill told) }
{
    let Told { device, answer } = told;
    posted(
        meters,
        Outcome {
            device,
            bill,
            tally: Tally::zero(),
            answer,
            from: Place::Nowhere,
        },
    )
}

impl Bench {
    // A fresh device, bill and meters.
    pub fn fresh() -> Bench
        ensures { result ≡ fresh_bench }
    {
        Bench {
            device: Device::fresh(),
            bill: Bill::fresh(),
            meters: Meters::zero(),
        }
    }

    // One call.
    pub fn step(self, call: Option<Call>, memories: &Memories, prices: Prices) -> Stepped
        ensures { result ≡ stepped (lent_of memories.now) prices self call }
    {
        let Bench {
            device,
            bill,
            meters,
        } = self;
        match call {
            Some(Call::Write(offset, v)) => posted(
                meters,
                device.write(offset, v, memories, prices, bill),
            ),
            Some(Call::Read(offset)) => kept(meters, bill, device.read(offset)),
            Some(Call::Request(va, a)) => posted(
                meters,
                device.request(va, a, memories, prices, bill),
            ),
            Some(Call::Drop) => kept(meters, bill, device.drop()),
            Some(Call::Shift(va)) => {
                let reported = device.shift_report(va, memories);
                Stepped {
                    bench: Bench {
                        device: reported.device,
                        bill,
                        meters: meters::after(meters, Tally::zero()),
                    },
                    said: Said::Reported(reported.shift),
                    from: reported.from,
                }
            }
            None => Stepped {
                bench: self,
                said: Said::Answered(Answer::Done),
                from: Place::Nowhere,
            },
        }
    }
}
