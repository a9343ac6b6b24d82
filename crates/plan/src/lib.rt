#![tactic(auto, using(crate::proofs::Tests::picks))]
// What a call is to do, by the registers, the pending fault and what was tested: refused, or one thing to be performed.
ghost use Rattle.std.specs.Prelude.{◌≡◌};
ghost use Rattle.registers.specs.Table.{command_of};
ghost use Rattle.plan.specs.declared.Plan.TheVariants.{Refused, Unreported};
ghost use Rattle.plan.specs.Plans.{tried_money, lent_refusal, request_refusal, request_plan, prefetch_plan, retry_plan, pending_plan, acknowledge_plan};
ghost use Rattle.plan.specs.Plans.{setting_plan, tend_plan, unless_walking, command_plan, write_plan, read_plan, drop_plan, shift_plan};

use bill::Bill;
use page::{Access, LIMIT, VirtualAddress};
use registers::{Command, Setting, Stall, Tending, offsets, refusals};

// Why the unit tries an address.
#[derive(Clone, Copy)]
pub enum Reason {
    Request,
    Retry,
    Prefetch,
}

// What is to be done. A setting is the offset of a register and the bits that are kept; a refused shift report reports.
// Kept: `perform::perform` takes a plan with any number of a refusal, and a setting of any offset.
#[derive(Clone, Copy)]
pub enum Plan {
    Refused(u8),
    Done,
    Show(u32),
    Set(u32, u16),
    Lock(u8, u8),
    Flush,
    FlushEntry,
    Load,
    Copy,
    Reset,
    Drop,
    Attempt(Access, Reason, VirtualAddress),
    Shift(VirtualAddress),
    Unreported(u8),
}

// What was tested before a call: the device is in range, memories and prices are not refused. The bill is to be tested.
#[derive(Clone, Copy)]
pub struct Tried {
    pub device: bool,
    pub memories: bool,
    pub prices: bool,
    pub bill: Bill,
}

impl Tried {
    // 4 or 9 where what is lent is refused.
    fn lent_refusal(self) -> Option<u8>
        ensures { result ≡ lent_refusal self.memories (tried_money self) }
    {
        if !self.memories {
            Some(refusals::MEMORIES)
        } else if self.prices & self.bill.ok() {
            None
        } else {
            Some(refusals::MONEY)
        }
    }

    // The number of a request that is refused.
    fn request_refusal(self, va: VirtualAddress) -> u8
        ensures { result ≡ request_refusal self.device self.memories (tried_money self) va }
    {
        if !self.device {
            refusals::RANGE
        } else if va.0 >= LIMIT {
            refusals::ADDRESS
        } else {
            self.lent_refusal().unwrap_or(refusals::PENDING)
        }
    }
}

// A request.
pub fn request(tried: Tried, p: Option<Stall>, va: VirtualAddress, a: Access) -> Plan
    ensures { result ≡ request_plan tried.device tried.memories (tried_money tried) p va a }
{
    let free = (va.0 < LIMIT) & p.is_none();
    if tried.device & tried.memories & tried.prices & free & tried.bill.ok() {
        Plan::Attempt(a, Reason::Request, va)
    } else {
        Plan::Refused(tried.request_refusal(va))
    }
}

// A write of the prefetch register, where lent is the refusal of what is lent.
fn prefetch(v: u16, lent: Option<u8>, control: u16, p: Option<Stall>) -> Plan
    ensures { result ≡ prefetch_plan v lent control p }
{
    if let Some(k) = lent {
        Plan::Refused(k)
    } else if v / 16384 % 2 != 0 {
        Plan::Refused(refusals::RANGE)
    } else if p.is_some() {
        Plan::Refused(refusals::PENDING)
    } else if registers::is_on(control) && registers::is_walking(control) {
        let va = VirtualAddress((v as u32) % 16384 * 1024);
        Plan::Attempt(Access::Read, Reason::Prefetch, va)
    } else {
        Plan::Refused(refusals::UNTIMELY)
    }
}

// A pending prefetch is only dropped, another fault retried.
fn retry(s: Stall) -> Plan
    ensures { result ≡ retry_plan s.fault s.at s.access }
{
    if registers::is_prefetch(s.fault) {
        return Plan::Drop;
    }
    Plan::Attempt(s.access, Reason::Retry, s.at)
}

// An acknowledge of what is pending.
fn pending(p: Option<Stall>) -> Plan
    ensures { result ≡ pending_plan p }
{
    match p {
        None => Plan::Refused(refusals::UNTIMELY),
        Some(s) => retry(s),
    }
}

// A write of the acknowledge register, where lent is the refusal of what is lent.
fn acknowledge(go: bool, lent: Option<u8>, p: Option<Stall>) -> Plan
    ensures { result ≡ acknowledge_plan go lent p }
{
    match lent {
        Some(k) => Plan::Refused(k),
        None if go => pending(p),
        None => Plan::Done,
    }
}

// A write that sets a register.
fn setting(s: Setting) -> Plan
    ensures { result ≡ setting_plan s }
{
    match s {
        Setting::Control(v) => Plan::Set(offsets::CONTROL, v),
        Setting::BaseHigh(v) => Plan::Set(offsets::BASE_HIGH, v),
        Setting::BaseLow(v) => Plan::Set(offsets::BASE_LOW, v),
        Setting::CamHigh(v) => Plan::Set(offsets::CAM_HIGH, v),
        Setting::CamLow(v) => Plan::Set(offsets::CAM_LOW, v),
        Setting::RamHigh(v) => Plan::Set(offsets::RAM_HIGH, v),
        Setting::RamLow(v) => Plan::Set(offsets::RAM_LOW, v),
    }
}

// A write that does something to the slots alone.
fn tend(t: Tending) -> Plan
    ensures { result ≡ tend_plan t }
{
    match t {
        Tending::Lock(l, v) => Plan::Lock(l, v),
        Tending::Flush => Plan::Flush,
        Tending::FlushEntry => Plan::FlushEntry,
    }
}

// Load and copy are refused while walking is set.
fn unless_walking(control: u16, plan: Plan) -> Plan
    ensures { result ≡ unless_walking control plan }
{
    if registers::is_walking(control) {
        Plan::Refused(refusals::UNTIMELY)
    } else {
        plan
    }
}

// A write by its command, for a device in range.
fn command(c: Command, tried: Tried, control: u16, p: Option<Stall>) -> Plan
    ensures { result ≡ command_plan tried.memories (tried_money tried) control p c }
{
    match c {
        Command::Refused(k) => Plan::Refused(k),
        Command::Nothing => Plan::Done,
        Command::Reset => Plan::Reset,
        Command::Set(s) => setting(s),
        Command::Tend(t) => tend(t),
        Command::Load => unless_walking(control, Plan::Load),
        Command::Copy => unless_walking(control, Plan::Copy),
        Command::Prefetch(v) => prefetch(v, tried.lent_refusal(), control, p),
        Command::Acknowledge(go) => acknowledge(go, tried.lent_refusal(), p),
    }
}

// A refusal, made out of the way of the calls that go on.
#[cold]
#[inline(never)]
fn refused(k: u8) -> Plan
    ensures { result ≡ Refused k }
{
    Plan::Refused(k)
}

// The same of a shift report.
#[cold]
#[inline(never)]
fn unreported(k: u8) -> Plan
    ensures { result ≡ Unreported k }
{
    Plan::Unreported(k)
}

// A register write.
pub fn write(tried: Tried, control: u16, p: Option<Stall>, offset: u32, v: u16) -> Plan
    ensures { result ≡ write_plan tried.device tried.memories (tried_money tried) control p (command_of offset v) }
{
    if tried.device {
        command(commands::command_at(offset, v), tried, control, p)
    } else {
        refused(refusals::RANGE)
    }
}

// A register read: ok says that the device is in range.
pub fn read(ok: bool, offset: u32) -> Plan
    ensures { result ≡ read_plan ok offset }
{
    if ok {
        Plan::Show(offset)
    } else {
        refused(refusals::RANGE)
    }
}

// A drop.
pub fn drop(ok: bool, p: Option<Stall>) -> Plan
    ensures { result ≡ drop_plan ok p }
{
    if !ok {
        refused(refusals::RANGE)
    } else if p.is_none() {
        refused(refusals::UNTIMELY)
    } else {
        Plan::Drop
    }
}

// A shift report.
pub fn shift(ok: bool, memories: bool, va: VirtualAddress) -> Plan
    ensures { result ≡ shift_plan ok memories va }
{
    if !ok {
        unreported(refusals::RANGE)
    } else if va.0 >= LIMIT {
        unreported(refusals::ADDRESS)
    } else if !memories {
        unreported(refusals::MEMORIES)
    } else {
        Plan::Shift(va)
    }
}
