#![tactic(auto)]
// A run: every call of a list in order, its answers and the state after the last one written.
pub mod answers;

ghost use Rattle.std.specs.Prelude.{◌≡◌, ◌<◌, ℕ, get_or};
ghost use Rattle.run.specs.Names.{◌and◌, lent_of, bill_ok};
ghost use Rattle.run.specs.Planned.{plan_of, Runnable};
ghost use Rattle.run.specs.Run.{ran, ran_from, run_with};
ghost use Rattle.run.specs.MayRun.{may_run};

use bank::slots::Slots;
use bill::Bill;
use calls::Call;
use memory::Memories;
use plan::{Plan, Tried};
use prices::Prices;
use registers::Stall;
use session::Bench;
use unit::Device;

// The bytes of an answer.
pub const ANSWER: usize = 16;

// What a run starts from: a bench, and lock base and victim as they were handed in.
#[derive(Clone, Copy)]
pub struct Start {
    pub bench: Bench,
    pub handed: u32,
}

// The prices of a run, with the numbers of their kinds.
#[derive(Clone, Copy)]
pub struct Priced {
    pub prices: Prices,
    pub onkind: u32,
    pub extkind: u32,
}

// What a call is to do, by what was tested once, the control register, the pending fault and the bill.
fn plan_of(call: Option<Call>, tried: Tried, control: u16, p: Option<Stall>) -> Plan
    ensures { result ≡ plan_of tried.device tried.memories (tried.prices and bill_ok tried.bill) control p call }
{
    match call {
        Some(Call::Write(offset, v)) => plan::write(tried, control, p, offset, v),
        Some(Call::Read(offset)) => plan::read(tried.device, offset),
        Some(Call::Request(va, a)) => plan::request(tried, p, va, a),
        Some(Call::Drop) => plan::drop(tried.device, p),
        Some(Call::Shift(va)) => plan::shift(tried.device, tried.memories, va),
        None => Plan::Done,
    }
}

// Nothing; a clause learns from it that a memory's elements are bytes.
fn told_bytes(memory: &[u8])
    ensures { (i : ℕ) → get_or memory.now i 0 < 256 }
{
    let _ = memory;
}

// Every call in order, its answers and the state after the last one written. The device lies in parts, the slots in place; whether it
// is in range, and memories and prices in order, is tested once.
fn run_all(
    start: Bench,
    handed: u32,
    calls: &[u8],
    memories: &Memories,
    prices: Prices,
    out: &mut [u8],
) -> u64
    requires { Runnable calls.now out.old }
    ensures { ran result out.new ≡ ran_from (lent_of memories.now) prices handed start calls.now out.old }
{
    let n = calls::count(calls);
    // The run's own: what is written to `out` would else have the memories' bounds read again at each call.
    let memories = *memories;
    let lent = memories.ok();
    told_bytes(memories.on);
    told_bytes(memories.ext);
    let money = prices::prices_ok(prices);
    let d = start.device;
    let ok = d.in_range();
    let mut slots = Slots::of(d.bank);
    let mut registers = d.registers;
    let mut pending = d.pending;
    let mut bill = start.bill;
    let mut meters = start.meters;
    for i in 0..n {
        let call = calls::decode_known(calls, calls::SIZE * i);
        let tried = Tried {
            device: ok,
            memories: lent,
            prices: money,
            bill,
        };
        let plan = plan_of(call, tried, registers.control, pending);
        let x = perform::perform(
            plan, &mut slots, registers, pending, bill, &memories, prices,
        );
        registers = x.registers;
        pending = x.pending;
        bill = x.bill;
        meters = meters.posted(x.tally);
        answers::put_said(out, ANSWER * i, x.said, x.from);
    }
    let last = Bench {
        device: Device {
            registers,
            bank: slots.bank,
            pending,
        },
        bill,
        meters,
    };
    state::put_state(out, ANSWER * n, last, handed);
    (ANSWER * n + state::SIZE) as u64
}

// A run from a start, with prices of two kinds; nothing where it is not answered.
pub fn run_from(
    start: Start,
    calls: &[u8],
    memories: &Memories,
    priced: Priced,
    out: &mut [u8],
) -> u64
    ensures { ran result out.new
        ≡ run_with (lent_of memories.now) priced.prices priced.onkind priced.extkind start.handed start.bench calls.now out.old }
{
    if !may_run(calls, priced, out.len()) {
        return 0;
    }
    run_all(
        start.bench,
        start.handed,
        calls,
        memories,
        priced.prices,
        out,
    )
}

// Prices of a kind, calls as they must be, and room for what is written.
pub(crate) fn may_run(calls: &[u8], priced: Priced, room: usize) -> bool
    ensures { result ≡ may_run calls.now priced.onkind priced.extkind room }
{
    priced.onkind <= 1
        && priced.extkind <= 1
        && calls::all_good(calls)
        && room >= state::SIZE
        && calls::count(calls) <= (room - state::SIZE) / ANSWER
}
