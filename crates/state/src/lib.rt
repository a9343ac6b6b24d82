#![tactic(auto)]
// The state of a bench as 328 bytes.
mod layout;
pub mod read;

ghost use Rattle.std.specs.Prelude.{◌≡◌, ◌+◌, ◌≤◌, ◌++◌};
ghost use Rattle.state.specs.Names.{length, slots, placed, words_put, binary64};
ghost use Rattle.state.specs.State.{register_words, slot_words, access_number, pending_words, device_words, state_words};
ghost use Rattle.std.specs.Float.Ieee.{to_bits};
ghost use Rattle.state.specs.Parts.{entry_words, lock_word, meter_words, row_word, bill_words};

use bill::Bill;
use lanes::SLOTS;
use meters::Meters;
use page::Access;
use prices::Side;
use registers::{Entry, Registers, Stall};
use session::Bench;
use unit::Device;

// The bytes of a state.
pub const SIZE: usize = layout::END;

// The words of a state.
const WORDS: usize = SIZE / 4;

// The word of a last row where none was read.
const NO_ROW: u32 = u32::MAX;

// The bits of every NaN.
const NAN: u64 = 0x7FF8_0000_0000_0000;

// The registers.
fn register_words(r: Registers, lock: u32) -> [u32; 7]
    ensures { result ≡ register_words r lock }
{
    let staged = entry_words(r.staged);
    let copied = entry_words(r.copied);
    [
        wire::halves(r.prefetch, r.control),
        r.base.0,
        lock,
        staged[0],
        staged[1],
        copied[0],
        copied[1],
    ]
}

// The slots in register form.
fn put_slots(out: &mut [u8], at: usize, cam: &[u32; SLOTS], ram: &[u32; SLOTS])
    requires { at + 256 ≤ length out.old }
    ensures { out.new ≡ placed out.old at (slot_words cam.now ram.now 0 slots) }
{
    for i in 0..SLOTS {
        wire::put(
            out,
            at + layout::SLOT * i,
            &[wire::swapped(cam[i]), wire::swapped(ram[i])],
        );
    }
}

// The number of an access.
fn access_number(a: Access) -> u8
    ensures { result ≡ access_number a }
{
    a as u8
}

// The pending fault.
fn pending_words(p: Option<Stall>) -> [u32; 2]
    ensures { result ≡ pending_words p }
{
    match p {
        None => [0, 0],
        Some(s) => [
            registers::fault_bit(s.fault) as u32 + 256 * (access_number(s.access) as u32),
            s.at.0,
        ],
    }
}

// The device.
fn put_device(out: &mut [u8], at: usize, d: Device, handed: u32)
    requires { at + 292 ≤ length out.old }
    ensures { out.new ≡ placed out.old at (device_words handed d) }
{
    let lock = lock_word(handed, d.bank.lock, d.bank.victim);
    wire::put(out, at, &register_words(d.registers, lock));
    put_slots(out, at + layout::SLOTS, &d.bank.cam, &d.bank.ram);
    wire::put(out, at + layout::STATUS, &pending_words(d.pending));
}

// The whole state where it has room.
fn put_all(out: &mut [u8], at: usize, b: Bench, handed: u32)
    requires { at + 328 ≤ length out.old }
    ensures { out.new ≡ placed out.old at (state_words handed b) }
{
    put_device(out, at, b.device, handed);
    wire::put(out, at + layout::FRESH, &rest_words(b.meters, b.bill));
}

// The state of a bench at an offset, where there is room.
pub fn put_state(out: &mut [u8], at: usize, b: Bench, handed: u32)
    ensures { out.new ≡ words_put out.old at (state_words handed b) }
{
    if wire::room(out.len(), at, WORDS) {
        put_all(out, at, b, handed);
    }
}

// A slot in register form.
pub(crate) fn entry_words(e: Entry) -> [u32; 2]
    ensures { result ≡ entry_words e }
{
    [
        wire::halves(e.camhi, e.camlo),
        wire::halves(e.ramhi, e.ramlo),
    ]
}

// Lock base and victim as a word: as they were handed in where that is more than a device can hold.
#[tactic(auto, using(crate::proofs::Locks::base_handed, crate::proofs::Locks::victim_handed, crate::proofs::Locks::both_held))]
pub(crate) fn lock_word(handed: u32, lock: u8, victim: u8) -> u32
    ensures { result ≡ lock_word handed lock victim }
{
    if handed % 65536 < 256 && handed / 65536 < 256 {
        wire::halves(lock as u16, victim as u16)
    } else {
        handed
    }
}

// The bits of a figure, one pattern for every NaN.
#[tactic(auto, using(crate::proofs::Figures::nan_bits))]
fn bits(x: f64) -> u64
    ensures { result ≡ to_bits binary64 x }
{
    if x.is_nan() { NAN } else { x.to_bits() }
}

// The last row as a word, all ones where there is none.
fn row_word(side: Side) -> u32
    ensures { result ≡ row_word side.last }
{
    side.last.unwrap_or(NO_ROW)
}

// The meters and the bill.
pub fn rest_words(m: Meters, b: Bill) -> [u32; 9]
    ensures { result ≡ meter_words m ++ bill_words b }
{
    let total = bits(b.total);
    let misses = bits(b.misses);
    [
        m.fresh,
        m.retries,
        m.words,
        (total % 4294967296) as u32,
        (total / 4294967296) as u32,
        (misses % 4294967296) as u32,
        (misses / 4294967296) as u32,
        row_word(b.onchip),
        row_word(b.external),
    ]
}
