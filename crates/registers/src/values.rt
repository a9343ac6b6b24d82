// What a read shows.
ghost use Rattle.std.specs.Prelude.{◌≡◌};
ghost use Rattle.registers.specs.Answers.{fault_status, fault_address};
ghost use Rattle.registers.specs.Table.{value_at};

use crate::{Answer, Registers, Stall, fault_bit, offsets, refusals};

// The fault status register.
fn fault_status(p: Option<Stall>) -> u16
    ensures { result ≡ fault_status p }
{
    p.map_or(0, |s| fault_bit(s.fault) as u16)
}

// The address of the pending fault.
fn fault_address(p: Option<Stall>) -> u32
    ensures { result ≡ fault_address p }
{
    p.map_or(0, |s| s.at.0)
}

// What a read shows, in the order of Table 3.
#[tactic(auto, unfolding(crate::specs::Table::value_at, crate::specs::Table::listed, page::specs::Pick::pick))]
pub fn value_at(offset: u32, r: Registers, lock: u8, victim: u8, p: Option<Stall>) -> Answer
    ensures { result ≡ value_at offset r lock victim p }
{
    match offset {
        offsets::PREFETCH => Answer::Value(r.prefetch),
        offsets::WALK_STATUS => Answer::Value(0),
        offsets::CONTROL => Answer::Value(r.control),
        offsets::FAULT_HIGH => Answer::Value((fault_address(p) / 65536 % 256) as u16),
        offsets::FAULT_LOW => Answer::Value((fault_address(p) / 128 % 512 * 128) as u16),
        offsets::FAULT_STATUS => Answer::Value(fault_status(p)),
        offsets::ACKNOWLEDGE => Answer::Refused(refusals::ONE_WAY),
        offsets::BASE_HIGH => Answer::Value((r.base.0 / 65536) as u16),
        offsets::BASE_LOW => Answer::Value((r.base.0 % 65536) as u16),
        offsets::LOCK => Answer::Value((lock as u16) % 64 * 1024 + (victim as u16) % 64 * 16),
        offsets::LOAD => Answer::Value(0),
        offsets::CAM_HIGH => Answer::Value(r.staged.camhi),
        offsets::CAM_LOW => Answer::Value(r.staged.camlo),
        offsets::RAM_HIGH => Answer::Value(r.staged.ramhi),
        offsets::RAM_LOW => Answer::Value(r.staged.ramlo),
        offsets::FLUSH => Answer::Value(0),
        offsets::ENTRY_FLUSH => Answer::Value(0),
        offsets::READ_CAM_HIGH => Answer::Value(r.copied.camhi),
        offsets::READ_CAM_LOW => Answer::Value(r.copied.camlo),
        offsets::READ_RAM_HIGH => Answer::Value(r.copied.ramhi),
        offsets::READ_RAM_LOW => Answer::Value(r.copied.ramlo),
        _ => Answer::Refused(refusals::NO_REGISTER),
    }
}
