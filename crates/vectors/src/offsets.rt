// What `registers` and `commands` answer, and `perform` does, for values worked out by hand from the paper: its
// file `stdout` has them, in hexadecimal.
// A read is shown by its offset, then 1 and the value or 0 and the number of the refusal.
// A write is shown by its offset and value, then a number for what it asks for and its value: 0 a refusal, 1 nothing,
// 2 reset, 3 load, 4 copy, 5 prefetch, 6 acknowledge, 7 global flush, 8 entry flush; or by the lock base and the
// victim; or by what it sets in fresh registers.
use bank::Bank;
use bank::slots::Slots;
use bill::Bill;
use lanes::SLOTS;
use memory::Memories;
use page::{Access, PhysicalAddress, VirtualAddress, Words};
use plan::Tried;
use prices::{Price, Prices};
use registers::{Answer, Command, Entry, Fault, Registers, Stall, Tending};

pub(crate) fn show_all() {
    let p = held(Fault::Permission, 0x3ABCDE, Access::Write);
    // The registers in the order of Table 3, then offsets without a register.
    for i in 0..21 {
        at(4 * i, p);
    }
    for offset in [0x02, 0x51, 0x54, 0xFFFFFFFC] {
        at(offset, p);
    }
    faults();
    bits();
    form(large());
    form(last());
    settings();
    tendings();
    ranges();
}

// A fault that is pending.
fn held(fault: Fault, va: u32, access: Access) -> Option<Stall> {
    Some(Stall {
        fault,
        at: VirtualAddress(va),
        access,
    })
}

// A read at an offset, and a write of FFFF.
fn at(offset: u32, p: Option<Stall>) {
    read(offset, p);
    write(offset, 0xFFFF);
}

// The bench sheet's slot 0 in register form.
fn large() -> Entry {
    Entry {
        camhi: 0,
        camlo: 0x0405,
        ramhi: 0x1002,
        ramlo: 0x0300,
    }
}

// The last tiny page, read only, in register form.
fn last() -> Entry {
    Entry {
        camhi: 3,
        camlo: 0xFFF7,
        ramhi: 0xFFFF,
        ramlo: 0xFE00,
    }
}

// Registers with a value in each, all in range: the bench sheet's slot staged, the last tiny page copied.
fn filled() -> Registers {
    Registers {
        control: 0x27,
        base: PhysicalAddress(0x20000080),
        prefetch: 0x3FFF,
        staged: large(),
        copied: last(),
    }
}

// A read at an offset, with lock base 31 and victim 5.
fn read(offset: u32, p: Option<Stall>) {
    show::text(b"read");
    show::number(offset as u64);
    told(registers::values::value_at(offset, filled(), 31, 5, p));
}

// What a read answers.
fn told(a: Answer) {
    match a {
        Answer::Value(v) => show::said(1, v as u64),
        Answer::Refused(k) => show::said(0, k as u64),
        _ => show::said(2, 0),
    }
}

// Each fault and none; then the last address in range and the first that is not.
fn faults() {
    fault(held(Fault::Translation, 0xFFFFFF, Access::Read));
    fault(held(Fault::Miss, 0x01007F, Access::Read));
    fault(held(Fault::Permission, 0x0100FF, Access::Write));
    fault(held(Fault::Prefetch, 0x500400, Access::Read));
    fault(None);
    pending(held(Fault::Miss, 0xFFFFFF, Access::Read));
    pending(held(Fault::Miss, 0x1000000, Access::Read));
}

// Whether a pending fault is in range.
fn pending(p: Option<Stall>) {
    show::answer(b"pending", registers::pending_ok(p));
}

// Status, address high and address low.
fn fault(p: Option<Stall>) {
    for offset in [0x14, 0x0C, 0x10] {
        read(offset, p);
    }
}

// A write at an offset.
fn write(offset: u32, v: u16) {
    show::words(b"write", offset, v as u32);
    asked(commands::command_at(offset, v), offset, v);
}

// What a write asks for.
fn asked(c: Command, offset: u32, v: u16) {
    match c {
        Command::Refused(k) => show::said(0, k as u64),
        Command::Nothing => show::said(1, 0),
        Command::Reset => show::said(2, 0),
        Command::Set(_) => {
            set(Registers::fresh(), offset, v);
        }
        Command::Tend(t) => tend(t),
        Command::Load => show::said(3, 0),
        Command::Copy => show::said(4, 0),
        Command::Prefetch(w) => show::said(5, w as u64),
        Command::Acknowledge(yes) => show::said(6, yes as u64),
    }
}

// What is done to the slots.
fn tend(t: Tending) {
    match t {
        Tending::Lock(l, v) => {
            show::numbers(l as u64, v as u64);
            show::end();
        }
        Tending::Flush => show::said(7, 0),
        Tending::FlushEntry => show::said(8, 0),
    }
}

// Single bits of control, acknowledge, lock, load and the flushes.
fn bits() {
    for (offset, v) in [
        (0x08, 0x0007),
        (0x08, 0xFFFE),
        (0x18, 0xFFFE),
        (0x24, 0x7C50),
        (0x24, 0x7DFF),
        (0x24, 0x8000),
        (0x24, 0x0200),
        (0x28, 0x0000),
        (0x28, 0x0001),
        (0x28, 0x0002),
        (0x28, 0x0003),
        (0x28, 0x0004),
        (0x3C, 0xFFFE),
        (0x40, 0xFFFE),
    ] {
        write(offset, v);
    }
}

// A slot in register form as CAM and RAM words and the address of its CAM, then the form of those words.
fn form(e: Entry) {
    let w = Words::from(e);
    let va = registers::cam_address(e);
    show::triple(b"form", w.cam, w.ram, va.0);
    entry(Entry::from(w));
}

// The four registers of an entry: CAM high and low, RAM high and low.
fn entry(e: Entry) {
    show::numbers(e.camhi as u64, e.camlo as u64);
    show::numbers(e.ramhi as u64, e.ramlo as u64);
    show::end();
}

// The bench sheet's words in slot 0, and nothing locked.
fn sheet() -> Slots {
    let mut slots = Slots::of(Bank::fresh());
    slots.store(0, Words::from(large()));
    slots
}

// The registers after a write, with nothing pending.
fn written(slots: &mut Slots, r: Registers, offset: u32, v: u16) -> Registers {
    let none = Memories {
        on: &[0u8; 1],
        onbase: PhysicalAddress(0),
        ext: &[0u8; 1],
        extbase: PhysicalAddress(0),
    };
    let free = Prices {
        onchip: Price::Flat(0.0),
        external: Price::Flat(0.0),
    };
    let bill = Bill::fresh();
    let tried = Tried {
        device: true,
        memories: true,
        prices: true,
        bill,
    };
    let plan = plan::write(tried, r.control, None, offset, v);
    perform::perform(plan, slots, r, None, bill, &none, free).registers
}

// Registers after a write that sets one: base, control, and the staged entry.
fn set(r: Registers, offset: u32, v: u16) -> Registers {
    let after = written(&mut sheet(), r, offset, v);
    show::words(b" set", after.base.0, after.control as u32);
    entry(after.staged);
    after
}

// Base and entry from fresh registers, half by half, then control; then whether the unit is on and whether it walks,
// 1 for yes, and the entry that copy read back.
fn settings() {
    let a = set(set(Registers::fresh(), 0x1C, 0x2000), 0x20, 0x0080);
    let b = set(set(a, 0x1C, 0x1000), 0x2C, 0);
    let c = set(set(b, 0x30, 0x0405), 0x34, 0x1002);
    let d = set(set(c, 0x38, 0x0300), 0x08, 0x27);
    show::number(registers::is_on(d.control) as u64);
    show::number(registers::is_walking(d.control) as u64);
    entry(d.copied);
}

// The bench sheet's words in slot 0, after a write with an entry staged: lock base, victim, and the victim's CAM word.
fn tended(staged: Entry, offset: u32, v: u16) {
    let mut slots = sheet();
    let r = Registers {
        staged,
        ..Registers::fresh()
    };
    written(&mut slots, r, offset, v);
    let victim = slots.bank.victim;
    let w = slots.words(victim as usize % SLOTS);
    show::triple(b" slots", slots.bank.lock as u32, victim as u32, w.cam);
}

// A lock; the flushes with another page staged; an entry flush with the page's tag.
fn tendings() {
    tended(large(), 0x24, 0x7C50);
    tended(last(), 0x3C, 1);
    tended(last(), 0x40, 1);
    tended(
        Entry {
            camhi: 0,
            camlo: 0x0400,
            ramhi: 0,
            ramlo: 0,
        },
        0x40,
        1,
    );
}

// Registers are in range as above; not with control 2F or 40, base 20000040, prefetch 4000, CAM high 4 or read RAM
// low 0380.
fn ranges() {
    let good = filled();
    range(0x27, good);
    range(
        0x2F,
        Registers {
            control: 0x2F,
            ..good
        },
    );
    range(
        0x40,
        Registers {
            control: 0x40,
            ..good
        },
    );
    range(
        0x20000040,
        Registers {
            base: PhysicalAddress(0x20000040),
            ..good
        },
    );
    range(
        0x4000,
        Registers {
            prefetch: 0x4000,
            ..good
        },
    );
    range(
        4,
        Registers {
            staged: Entry {
                camhi: 4,
                ..large()
            },
            ..good
        },
    );
    range(
        0x0380,
        Registers {
            copied: Entry {
                ramlo: 0x0380,
                ..last()
            },
            ..good
        },
    );
    show::answer(b"fresh", registers::registers_ok(Registers::fresh()));
}

// The value that a case is about, and whether its registers are in range.
fn range(n: u64, r: Registers) {
    show::text(b"range");
    show::number(n);
    show::verdict(registers::registers_ok(r));
}
