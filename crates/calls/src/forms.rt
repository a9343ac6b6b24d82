// Each form of a call, from the fields of a record.
ghost use Rattle.std.specs.Prelude.{◌≡◌};
ghost use Rattle.calls.specs.Names.{true};
ghost use Rattle.calls.specs.Forms.{access_of, write_by, read_by, request_by, drop_by, report_by};
ghost use Rattle.calls.specs.Kinds.{call_by, call_from, is_good};

use crate::Call;
use page::{Access, VirtualAddress};

// A register's values are below this.
const VALUES: u32 = 65536;

// The access that a byte says.
#[tactic(auto, using(page::proofs::Picks::tests), unfolding(crate::specs::Forms::access_of))]
pub fn access_of(byte: u8) -> Access
    ensures { result ≡ access_of byte }
{
    match byte {
        0 => Access::Read,
        _ => Access::Write,
    }
}

// A register write: an offset and a value.
#[tactic(auto, using(page::proofs::Picks::tests), unfolding(crate::specs::Forms::write_by))]
fn write_by(byte: u8, address: u32, value: u32) -> Option<Call>
    ensures { result ≡ write_by byte address value }
{
    if address == 0 && value < VALUES {
        Some(Call::Write(byte as u32, value as u16))
    } else {
        None
    }
}

// A register read: an offset.
#[tactic(auto, using(page::proofs::Picks::tests), unfolding(crate::specs::Forms::read_by))]
fn read_by(byte: u8, address: u32, value: u32) -> Option<Call>
    ensures { result ≡ read_by byte address value }
{
    (address == 0 && value == 0).then_some(Call::Read(byte as u32))
}

// A request: an access and an address.
#[tactic(auto, using(page::proofs::Picks::tests), unfolding(crate::specs::Forms::request_by))]
fn request_by(byte: u8, address: u32, value: u32) -> Option<Call>
    ensures { result ≡ request_by byte address value }
{
    (byte < 2 && value == 0).then_some(Call::Request(VirtualAddress(address), access_of(byte)))
}

// A drop, which uses nothing.
#[tactic(auto, using(page::proofs::Picks::tests), unfolding(crate::specs::Forms::drop_by))]
fn drop_by(byte: u8, address: u32, value: u32) -> Option<Call>
    ensures { result ≡ drop_by byte address value }
{
    (byte == 0 && address == 0 && value == 0).then_some(Call::Drop)
}

// A shift report: an address.
#[tactic(auto, using(page::proofs::Picks::tests), unfolding(crate::specs::Forms::report_by))]
fn shift_by(byte: u8, address: u32, value: u32) -> Option<Call>
    ensures { result ≡ report_by byte address value }
{
    (byte == 0 && value == 0).then_some(Call::Shift(VirtualAddress(address)))
}

// The call of a kind with these fields.
#[tactic(auto, using(page::proofs::Picks::tests), unfolding(crate::specs::Kinds::call_by))]
fn call_by(kind: u8, byte: u8, address: u32, value: u32) -> Option<Call>
    ensures { result ≡ call_by kind byte address value }
{
    match kind {
        1 => write_by(byte, address, value),
        2 => read_by(byte, address, value),
        3 => request_by(byte, address, value),
        4 => drop_by(byte, address, value),
        5 => shift_by(byte, address, value),
        _ => None,
    }
}

// The same where the two bytes between are zero.
#[tactic(auto, using(page::proofs::Picks::tests), unfolding(crate::specs::Kinds::call_from))]
pub(crate) fn call_from(
    kind: u8,
    byte: u8,
    third: u8,
    fourth: u8,
    address: u32,
    value: u32,
) -> Option<Call>
    ensures { result ≡ call_from kind byte third fourth address value }
{
    if third != 0 || fourth != 0 {
        return None;
    }
    call_by(kind, byte, address, value)
}

// The same for a record that is known to be a call: nothing is tested but its kind.
// Kept: one function with a flag for whether it tests would be no plainer, since this one tests nothing but the kind.
pub(crate) fn known(kind: u8, byte: u8, address: u32, value: u32) -> Option<Call>
    ensures { is_good (call_by kind byte address value) ≡ true → result ≡ call_by kind byte address value }
{
    match kind {
        1 => Some(Call::Write(byte as u32, (value % VALUES) as u16)),
        2 => Some(Call::Read(byte as u32)),
        3 => Some(Call::Request(VirtualAddress(address), access_of(byte))),
        4 => Some(Call::Drop),
        _ => Some(Call::Shift(VirtualAddress(address))),
    }
}
