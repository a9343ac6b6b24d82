#![tactic(auto)]
// The registers: their types and Table 3, what is in range, and a slot in register form.
pub mod offsets;
pub mod refusals;
pub mod values;

ghost use Rattle.std.specs.Prelude.{◌≡◌};
ghost use Rattle.registers.specs.Answers.{fault_bit, is_prefetch};
ghost use Rattle.registers.specs.Fields.{is_on, is_walking, fresh_registers, entry_ok, registers_ok, pending_ok, words_of, entry_of, cam_address};

use page::{Access, LIMIT, PhysicalAddress, VirtualAddress, Words};

// A fault, with its status bit.
#[derive(Clone, Copy)]
pub enum Fault {
    Translation = 1,
    Miss = 2,
    Permission = 4,
    Prefetch = 8,
}

// A fault that is held: its kind, with the address and access of the request.
// The two bytes stand together: each gap between fields is copied along with the value, at every call of a run.
#[derive(Clone, Copy)]
pub struct Stall {
    pub fault: Fault,
    pub access: Access,
    pub at: VirtualAddress,
}

// What a call answers.
// Kept: `decision::settle`, `tally_of` and `prefetch_kept` take an answer with any number of a refusal.
#[derive(Clone, Copy)]
pub enum Answer {
    Address(PhysicalAddress),
    Fault(Fault),
    Value(u16),
    Done,
    Refused(u8),
}

// A slot in register form.
#[derive(Clone, Copy, Default)]
pub struct Entry {
    pub camhi: u16,
    pub camlo: u16,
    pub ramhi: u16,
    pub ramlo: u16,
}

// The registers that keep a value of their own: staged is what load stores, copied what copy read back.
#[derive(Clone, Copy)]
pub struct Registers {
    pub control: u16,
    pub base: PhysicalAddress,
    pub prefetch: u16,
    pub staged: Entry,
    pub copied: Entry,
}

// A register that a write sets, with the bits that are kept.
#[derive(Clone, Copy)]
pub enum Setting {
    Control(u16),
    BaseHigh(u16),
    BaseLow(u16),
    CamHigh(u16),
    CamLow(u16),
    RamHigh(u16),
    RamLow(u16),
}

// What a write does to the slots alone.
#[derive(Clone, Copy)]
pub enum Tending {
    Lock(u8, u8),
    Flush,
    FlushEntry,
}

// What a write asks for.
// Kept: `plan::write` hands the number of a refusal on to a plan, which has any.
#[derive(Clone, Copy)]
pub enum Command {
    Refused(u8),
    Nothing,
    Reset,
    Set(Setting),
    Tend(Tending),
    Load,
    Copy,
    Prefetch(u16),
    Acknowledge(bool),
}

// Whether the unit is on.
pub fn is_on(control: u16) -> bool
    ensures { result ≡ is_on control }
{
    control / 2 % 2 == 1
}

// Whether the unit walks the tables.
pub fn is_walking(control: u16) -> bool
    ensures { result ≡ is_walking control }
{
    control / 4 % 2 == 1
}

// Whether a fault is a prefetch's.
pub fn is_prefetch(k: Fault) -> bool
    ensures { result ≡ is_prefetch k }
{
    matches!(k, Fault::Prefetch)
}

// The status bit of a fault.
pub fn fault_bit(k: Fault) -> u8
    ensures { result ≡ fault_bit k }
{
    k as u8
}

// Whether a slot in register form has only its layout's bits.
#[tactic(auto, using(page::proofs::Picks::tests), unfolding(crate::specs::Fields::entry_ok))]
fn entry_ok(e: Entry) -> bool
    ensures { result ≡ entry_ok e }
{
    e.camhi < 4 && e.ramlo % 256 == 0
}

// Whether the registers are in range.
#[tactic(auto, using(page::proofs::Picks::tests), unfolding(crate::specs::Fields::registers_ok))]
pub fn registers_ok(r: Registers) -> bool
    ensures { result ≡ registers_ok r }
{
    r.control < 64
        && r.control / 8 % 4 == 0
        && r.base.0 % 128 == 0
        && r.prefetch < 16384
        && entry_ok(r.staged)
        && entry_ok(r.copied)
}

// Whether a pending address is a virtual one.
pub fn pending_ok(p: Option<Stall>) -> bool
    ensures { result ≡ pending_ok p }
{
    p.is_none_or(|s| s.at.0 < LIMIT)
}

// A slot's words of its register form.
impl From<Entry> for Words {
    ghost from_gives = { λ e w. w ≡ words_of e };

    fn from(e: Entry) -> Words {
        Words {
            cam: (e.camhi as u32) * 65536 + (e.camlo as u32),
            ram: (e.ramhi as u32) * 65536 + (e.ramlo as u32),
        }
    }
}

// The register form of a slot's words.
impl From<Words> for Entry {
    ghost from_gives = { λ w e. e ≡ entry_of w };

    fn from(w: Words) -> Entry {
        Entry {
            camhi: (w.cam / 65536) as u16,
            camlo: (w.cam % 65536) as u16,
            ramhi: (w.ram / 65536) as u16,
            ramlo: (w.ram % 65536) as u16,
        }
    }
}

// The address of the CAM registers.
#[tactic(auto, unfolding(crate::specs::Fields::cam_address))]
pub fn cam_address(e: Entry) -> VirtualAddress
    ensures { result ≡ cam_address e }
{
    let w = Words::from(e);
    VirtualAddress(w.cam / 16 % 16384 * 1024)
}

impl Registers {
    // Every register zero.
    pub fn fresh() -> Registers
        ensures { result ≡ fresh_registers }
    {
        Registers {
            control: 0,
            base: PhysicalAddress(0),
            prefetch: 0,
            staged: Entry::default(),
            copied: Entry::default(),
        }
    }
}
