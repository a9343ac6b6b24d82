#![tactic(auto)]
// What a write asks for, by its offset and value alone.
ghost use Rattle.std.specs.Prelude.{◌≡◌};
ghost use Rattle.registers.specs.Table.{command_of, control_command, lock_command, load_command, when_bit};

use registers::{Command, Setting, Tending, offsets, refusals};

// What a write asks for, in the order of Table 3.
#[tactic(auto, unfolding(registers::specs::Table::command_of, registers::specs::Table::listed, page::specs::Pick::pick))]
pub fn command_at(offset: u32, v: u16) -> Command
    ensures { result ≡ command_of offset v }
{
    match offset {
        offsets::PREFETCH => Command::Prefetch(v),
        offsets::WALK_STATUS => Command::Refused(refusals::ONE_WAY),
        offsets::CONTROL => control_command(v),
        offsets::FAULT_HIGH => Command::Refused(refusals::ONE_WAY),
        offsets::FAULT_LOW => Command::Refused(refusals::ONE_WAY),
        offsets::FAULT_STATUS => Command::Refused(refusals::ONE_WAY),
        offsets::ACKNOWLEDGE => Command::Acknowledge(v % 2 == 1),
        offsets::BASE_HIGH => Command::Set(Setting::BaseHigh(v)),
        offsets::BASE_LOW => Command::Set(Setting::BaseLow(v / 128 * 128)),
        offsets::LOCK => lock_command(v),
        offsets::LOAD => load_command(v),
        offsets::CAM_HIGH => Command::Set(Setting::CamHigh(v % 4)),
        offsets::CAM_LOW => Command::Set(Setting::CamLow(v)),
        offsets::RAM_HIGH => Command::Set(Setting::RamHigh(v)),
        offsets::RAM_LOW => Command::Set(Setting::RamLow(v / 256 * 256)),
        offsets::FLUSH => when_bit(v, Tending::Flush),
        offsets::ENTRY_FLUSH => when_bit(v, Tending::FlushEntry),
        offsets::READ_CAM_HIGH => Command::Refused(refusals::ONE_WAY),
        offsets::READ_CAM_LOW => Command::Refused(refusals::ONE_WAY),
        offsets::READ_RAM_HIGH => Command::Refused(refusals::ONE_WAY),
        offsets::READ_RAM_LOW => Command::Refused(refusals::ONE_WAY),
        _ => Command::Refused(refusals::NO_REGISTER),
    }
}

// A write of the control register.
#[tactic(auto, using(page::proofs::Picks::tests), unfolding(registers::specs::Table::control_command))]
fn control_command(v: u16) -> Command
    ensures { result ≡ control_command v }
{
    if v % 2 == 1 {
        Command::Set(Setting::Control(v / 32 % 2 * 32 + v % 8))
    } else {
        Command::Reset
    }
}

// A write of the lock register.
#[tactic(auto, using(page::proofs::Picks::tests), unfolding(registers::specs::Table::lock_command))]
fn lock_command(v: u16) -> Command
    ensures { result ≡ lock_command v }
{
    let lock = v / 1024;
    let victim = v / 16 % 64;
    if lock < 32 && victim < 32 {
        Command::Tend(Tending::Lock(lock as u8, victim as u8))
    } else {
        Command::Refused(refusals::RANGE)
    }
}

// A write of the load register.
#[tactic(auto, using(page::proofs::Picks::tests), unfolding(registers::specs::Table::load_command))]
fn load_command(v: u16) -> Command
    ensures { result ≡ load_command v }
{
    match v % 4 {
        0 => Command::Nothing,
        1 => Command::Load,
        2 => Command::Copy,
        _ => Command::Refused(refusals::RANGE),
    }
}

// A write of a flush register.
#[tactic(auto, using(page::proofs::Picks::tests), unfolding(registers::specs::Table::when_bit))]
fn when_bit(v: u16, t: Tending) -> Command
    ensures { result ≡ when_bit v t }
{
    if v % 2 == 1 {
        Command::Tend(t)
    } else {
        Command::Nothing
    }
}
