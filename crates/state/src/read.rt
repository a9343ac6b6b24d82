// Numbers of a handed-in state as a device takes them: lock base, victim and the pending fault.
ghost use Rattle.std.specs.Prelude.{◌≡◌, ◌≤◌};
ghost use Rattle.state.specs.Names.{slots};
ghost use Rattle.state.specs.Read.{narrowed, pending_of, is_status, is_state, entry_at, registers_in, lane_from, bank_in};
ghost use Rattle.state.specs.Read.{meters_in, side_of, bill_in, device_in, bench_in, lock_in, price_of, prices_of};

use crate::{NO_ROW, SIZE, layout};
use bank::Bank;
use bill::Bill;
use lanes::SLOTS;
use meters::Meters;
use page::{PhysicalAddress, VirtualAddress};
use prices::{Price, Prices, Side};
use registers::{Entry, Fault, Registers, Stall};
use session::Bench;
use std::array;
use unit::Device;

// A number of a device's 8 bits, or the greatest one where it is more.
#[tactic(auto, using(std::proofs::lemmas::Bool::Decides::nat_tests), unfolding(crate::specs::Read::narrowed, page::specs::Pick::pick))]
fn narrow(x: u16) -> u8
    ensures { result ≡ narrowed x }
{
    u8::try_from(x).unwrap_or(u8::MAX)
}

// The pending fault of a status, an access and an address.
#[tactic(auto, using(std::proofs::lemmas::Bool::Decides::nat_tests), unfolding(crate::specs::Read::pending_of, page::specs::Pick::pick))]
fn pending_of(status: u8, access: u8, address: u32) -> Option<Stall>
    ensures { result ≡ pending_of status access address }
{
    let fault = match status {
        1 => Fault::Translation,
        2 => Fault::Miss,
        4 => Fault::Permission,
        8 => Fault::Prefetch,
        _ => return None,
    };
    Some(Stall {
        fault,
        at: VirtualAddress(address),
        access: calls::forms::access_of(access),
    })
}

// A slot in register form.
fn entry_at(state: &[u8], at: usize) -> Entry
    requires { at ≤ 20 }
    ensures { result ≡ entry_at state.now at }
{
    Entry {
        camhi: wire::low_at(state, at),
        camlo: wire::high_at(state, at),
        ramhi: wire::low_at(state, at + 4),
        ramlo: wire::high_at(state, at + 4),
    }
}

// The registers of a state.
fn registers_at(state: &[u8]) -> Registers
    ensures { result ≡ registers_in state.now }
{
    Registers {
        control: wire::high_at(state, 0),
        base: PhysicalAddress(wire::word_at(state, 4)),
        prefetch: wire::low_at(state, 0),
        staged: entry_at(state, layout::STAGED),
        copied: entry_at(state, layout::COPIED),
    }
}

// One lane of the slots, its first word at an offset.
fn lane_at(state: &[u8], at: usize) -> [u32; SLOTS]
    requires { at ≤ 32 }
    ensures { result ≡ lane_from state.now at 0 slots }
{
    array::from_fn(|i| wire::swapped(wire::word_at(state, at + layout::SLOT * i)))
}

// What a state keeps of a memory.
#[tactic(auto, using(std::proofs::lemmas::Bool::Decides::nat_tests), unfolding(crate::specs::Read::side_of, page::specs::Pick::pick))]
fn side_of(row: u32) -> Side
    ensures { result ≡ side_of row }
{
    Side {
        last: (row != NO_ROW).then_some(row),
    }
}

// The bill of a state, with its figures.
fn bill_at(state: &[u8], total: f64, misses: f64) -> Bill
    ensures { result ≡ bill_in state.now total misses }
{
    Bill {
        total,
        misses,
        onchip: side_of(wire::word_at(state, layout::ROW)),
        external: side_of(wire::word_at(state, layout::EXTERNAL_ROW)),
    }
}

// The meters of a state.
fn meters_at(state: &[u8]) -> Meters
    ensures { result ≡ meters_in state.now }
{
    Meters {
        fresh: wire::word_at(state, layout::FRESH),
        retries: wire::word_at(state, layout::RETRIES),
        words: wire::word_at(state, layout::READ),
    }
}

// The slots of a state.
fn bank_at(state: &[u8]) -> Bank
    ensures { result ≡ bank_in state.now }
{
    Bank {
        cam: lane_at(state, layout::SLOTS),
        ram: lane_at(state, layout::RAM),
        lock: narrow(wire::low_at(state, layout::LOCK)),
        victim: narrow(wire::high_at(state, layout::LOCK)),
    }
}

// The device of a state.
fn device_at(state: &[u8]) -> Device
    ensures { result ≡ device_in state.now }
{
    Device {
        registers: registers_at(state),
        bank: bank_at(state),
        pending: pending_of(
            wire::byte_at(state, layout::STATUS),
            wire::byte_at(state, layout::ACCESS),
            wire::word_at(state, layout::ADDRESS),
        ),
    }
}

// The bench of a state, with the bill's figures.
pub fn bench_at(state: &[u8], total: f64, misses: f64) -> Bench
    ensures { result ≡ bench_in state.now total misses }
{
    Bench {
        device: device_at(state),
        bill: bill_at(state, total, misses),
        meters: meters_at(state),
    }
}

// Lock base and victim of a state, as they were handed in.
pub fn lock_at(state: &[u8]) -> u32
    ensures { result ≡ lock_in state.now }
{
    wire::word_at(state, layout::LOCK)
}

// Whether a pending status is one.
fn status_ok(x: u8) -> bool
    ensures { result ≡ is_status x }
{
    matches!(x, 0 | 1 | 2 | 4 | 8)
}

// Whether the bytes are a state.
#[tactic(auto, using(page::proofs::Picks::tests), unfolding(crate::specs::Read::is_state))]
pub fn state_ok(state: &[u8]) -> bool
    ensures { result ≡ is_state state.now }
{
    state.len() == SIZE
        && wire::byte_at(state, layout::ACCESS) <= 1
        && wire::byte_at(state, layout::ZERO) == 0
        && wire::byte_at(state, layout::LAST_ZERO) == 0
        && status_ok(wire::byte_at(state, layout::STATUS))
}

// A price of a kind: flat, or by the row.
// Kept: the C interface gives the kind as a number.
#[tactic(auto, using(std::proofs::lemmas::Bool::Decides::nat_tests), unfolding(crate::specs::Read::price_of, page::specs::Pick::pick))]
fn price_of(kind: u32, a: f64, b: f64) -> Price
    ensures { result ≡ price_of kind a b }
{
    match kind {
        0 => Price::Flat(a),
        _ => Price::Row { same: a, fresh: b },
    }
}

// The prices of two kinds.
pub fn prices_of(onkind: u32, ona: f64, onb: f64, extkind: u32, exta: f64, extb: f64) -> Prices
    ensures { result ≡ prices_of onkind ona onb extkind exta extb }
{
    Prices {
        onchip: price_of(onkind, ona, onb),
        external: price_of(extkind, exta, extb),
    }
}
