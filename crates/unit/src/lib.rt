#![tactic(auto)]
// The device and its calls.
ghost use Rattle.std.specs.Prelude.{◌≡◌};
ghost use Rattle.unit.specs.Names.{lent_of, performed};
ghost use Rattle.unit.specs.Device.{fresh_device, in_range, reported};
ghost use Rattle.unit.specs.Acts.{done_acted, tried_of, answer_in, shift_in, outcome_of, told_of, Fitted, Alone};
ghost use Rattle.unit.specs.Calls.{request_of, write_of, read_of, drop_of, shift_of, shift_from};

use bank::Bank;
use bank::slots::Slots;
use bill::Bill;
use decision::{Said, ShiftError};
use memory::{Memories, Place};
use meters::Tally;
use page::{Access, PhysicalAddress, VirtualAddress};
use plan::{Plan, Tried};
use prices::{Price, Prices};
use registers::{Answer, Registers, Stall};

// The registers, the slots, and perhaps one pending fault.
#[derive(Clone, Copy)]
pub struct Device {
    pub registers: Registers,
    pub bank: Bank,
    pub pending: Option<Stall>,
}

// What a call that may walk hands back: from is where the last word of its walk lies, nowhere where it made none.
#[derive(Clone, Copy)]
pub struct Outcome {
    pub device: Device,
    pub bill: Bill,
    pub tally: Tally,
    pub answer: Answer,
    pub from: Place,
}

// What a call that never walks hands back.
#[derive(Clone, Copy)]
pub struct Told {
    pub device: Device,
    pub answer: Answer,
}

// What a shift report hands back: from is where the last word of its walk lies, nowhere where it is refused.
#[derive(Clone, Copy)]
pub struct Reported {
    pub device: Device,
    pub shift: Result<i64, ShiftError>,
    pub from: Place,
}

// What a plan leaves and says.
#[derive(Clone, Copy)]
struct Acted {
    device: Device,
    bill: Bill,
    tally: Tally,
    said: Said,
    from: Place,
}

// What is planned, done to a device.
fn act(d: Device, plan: Plan, memories: &Memories, prices: Prices, bill: Bill) -> Acted
    ensures { Fitted d plan → done_acted result ≡ performed (lent_of memories.now) prices bill d.registers d.bank d.pending plan }
{
    let mut slots = Slots::of(d.bank);
    let x = perform::perform(
        plan,
        &mut slots,
        d.registers,
        d.pending,
        bill,
        memories,
        prices,
    );
    Acted {
        device: Device {
            registers: x.registers,
            bank: slots.bank,
            pending: x.pending,
        },
        bill: x.bill,
        tally: x.tally,
        said: x.said,
        from: x.from,
    }
}

// The prices of a call that charges nothing.
const FREE: Prices = Prices {
    onchip: Price::Flat(0.0),
    external: Price::Flat(0.0),
};

// The same for a plan that reads no memory and charges nothing.
fn act_alone(d: Device, plan: Plan) -> Acted
    ensures { Fitted d plan → Alone d plan (done_acted result) }
{
    let none = [0u8; 1];
    let memories = Memories {
        on: &none,
        onbase: PhysicalAddress(0),
        ext: &none,
        extbase: PhysicalAddress(0),
    };
    act(d, plan, &memories, FREE, Bill::fresh())
}

// The answer in what is said.
fn answer_of(said: Said) -> Answer
    ensures { result ≡ answer_in said }
{
    match said {
        Said::Answered(r) => r,
        Said::Reported(_) => Answer::Done,
    }
}

// The shift in what is said.
fn shift_in(said: Said) -> Result<i64, ShiftError>
    ensures { result ≡ shift_in said }
{
    match said {
        Said::Answered(_) => Err(ShiftError::Fault),
        Said::Reported(s) => s,
    }
}

// What a call that may walk hands back.
fn outcome_of(x: Acted) -> Outcome
    ensures { result ≡ outcome_of (done_acted x) }
{
    Outcome {
        device: x.device,
        bill: x.bill,
        tally: x.tally,
        answer: answer_of(x.said),
        from: x.from,
    }
}

// What a call that never walks hands back.
fn told_of(x: Acted) -> Told
    ensures { result ≡ told_of (done_acted x) }
{
    Told {
        device: x.device,
        answer: answer_of(x.said),
    }
}

impl Device {
    // How many slots there are.
    pub const SLOTS: usize = lanes::SLOTS;

    // The device after reset: all zero.
    pub fn fresh() -> Device
        ensures { result ≡ fresh_device }
    {
        Device {
            registers: Registers::fresh(),
            bank: Bank::fresh(),
            pending: None,
        }
    }

    // Whether every field is in its range.
    pub fn in_range(self) -> bool
        ensures { result ≡ in_range self }
    {
        registers::registers_ok(self.registers)
            & registers::pending_ok(self.pending)
            & self.bank.in_range()
    }

    // What is tested before a call that may walk.
    fn tried(self, memories: &Memories, prices: Prices, bill: Bill) -> Tried
        ensures { result ≡ tried_of (lent_of memories.now) prices bill self }
    {
        Tried {
            device: self.in_range(),
            memories: memories.ok(),
            prices: prices::prices_ok(prices),
            bill,
        }
    }

    // A request.
    pub fn request(
        self,
        va: VirtualAddress,
        a: Access,
        memories: &Memories,
        prices: Prices,
        bill: Bill,
    ) -> Outcome
        ensures { result ≡ request_of (lent_of memories.now) prices bill self va a }
    {
        let tried = self.tried(memories, prices, bill);
        outcome_of(act(
            self,
            plan::request(tried, self.pending, va, a),
            memories,
            prices,
            bill,
        ))
    }

    // A register write.
    pub fn write(
        self,
        offset: u32,
        v: u16,
        memories: &Memories,
        prices: Prices,
        bill: Bill,
    ) -> Outcome
        ensures { result ≡ write_of (lent_of memories.now) prices bill self offset v }
    {
        let tried = self.tried(memories, prices, bill);
        let plan = plan::write(tried, self.registers.control, self.pending, offset, v);
        outcome_of(act(self, plan, memories, prices, bill))
    }

    // A register read.
    pub fn read(self, offset: u32) -> Told
        ensures { result ≡ read_of self offset }
    {
        told_of(act_alone(self, plan::read(self.in_range(), offset)))
    }

    // The pending fault cleared.
    pub fn drop(self) -> Told
        ensures { result ≡ drop_of self }
    {
        told_of(act_alone(self, plan::drop(self.in_range(), self.pending)))
    }

    // A shift report.
    pub fn shift_report(self, va: VirtualAddress, memories: &Memories) -> Reported
        ensures { result ≡ reported self (shift_of (lent_of memories.now) self va) (shift_from (lent_of memories.now) self va) }
    {
        let plan = plan::shift(self.in_range(), memories.ok(), va);
        let x = act(self, plan, memories, FREE, Bill::fresh());
        Reported {
            device: x.device,
            shift: shift_in(x.said),
            from: x.from,
        }
    }
}
