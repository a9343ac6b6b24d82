// A scripted session on the device: every register, every refusal from 1 to 9 and every fault. Its file `stdout` was
// worked out by hand. A line has the call, a number (0 accepted, 100 an address, 101 a value, 102 a distance, else
// the paper's) and a value. A call that made a walk has a line more: 1 and the offset of its last word on chip, 2 and
// the offset in the external memory.
use crate::walks;
use calls::Call;
use decision::Said;
use memory::{Memories, Place};
use page::{Access, PhysicalAddress, VirtualAddress};
use prices::{Price, Prices};
use session::Bench;

// The base of the external memory that is lent.
const BASE: PhysicalAddress = PhysicalAddress(0x20000000);

// Prices that are good.
const PRICES: Prices = Prices {
    onchip: Price::Flat(1.0),
    external: Price::Row {
        same: 2.0,
        fresh: 10.0,
    },
};

// An on-chip price that is too high.
const DEAR: Prices = Prices {
    onchip: Price::Flat(4096.5),
    external: Price::Flat(0.0),
};

// The calls up to the first request past 2^24.
const FIRST: [Call; 110] = [
    Call::Read(0x00),
    Call::Read(0x04),
    Call::Read(0x08),
    Call::Read(0x0C),
    Call::Read(0x10),
    Call::Read(0x14),
    Call::Read(0x18),
    Call::Read(0x1C),
    Call::Read(0x20),
    Call::Read(0x24),
    Call::Read(0x28),
    Call::Read(0x2C),
    Call::Read(0x30),
    Call::Read(0x34),
    Call::Read(0x38),
    Call::Read(0x3C),
    Call::Read(0x40),
    Call::Read(0x44),
    Call::Read(0x48),
    Call::Read(0x4C),
    Call::Read(0x50),
    Call::Read(0x54),
    Call::Read(0x02),
    Call::Write(0x54, 0x0000),
    Call::Write(0x04, 0x0001),
    Call::Write(0x50, 0x0001),
    Call::Write(0x00, 0x0000),
    Call::Write(0x18, 0x0001),
    Call::Write(0x18, 0x0002),
    Call::Request(VirtualAddress(0x012345), Access::Write),
    Call::Write(0x1C, 0x2000),
    Call::Write(0x20, 0xFFFF),
    Call::Read(0x1C),
    Call::Read(0x20),
    Call::Write(0x24, 0x7DFF),
    Call::Read(0x24),
    Call::Write(0x24, 0x8000),
    Call::Write(0x24, 0x0200),
    Call::Write(0x2C, 0xFFFF),
    Call::Write(0x30, 0xFFFF),
    Call::Write(0x34, 0xFFFF),
    Call::Write(0x38, 0xFFFF),
    Call::Read(0x2C),
    Call::Read(0x30),
    Call::Read(0x34),
    Call::Read(0x38),
    Call::Write(0x08, 0xFFFF),
    Call::Read(0x08),
    Call::Write(0x08, 0x0006),
    Call::Read(0x08),
    Call::Read(0x1C),
    Call::Read(0x24),
    Call::Read(0x30),
    Call::Write(0x1C, 0x2000),
    Call::Write(0x08, 0x0003),
    Call::Request(VirtualAddress(0x012345), Access::Read),
    Call::Read(0x0C),
    Call::Read(0x10),
    Call::Read(0x14),
    Call::Request(VirtualAddress(0x012345), Access::Read),
    Call::Write(0x00, 0x0048),
    Call::Write(0x30, 0x0405),
    Call::Write(0x34, 0x1002),
    Call::Write(0x38, 0x0300),
    Call::Write(0x28, 0x0003),
    Call::Write(0x28, 0x0001),
    Call::Write(0x28, 0x0002),
    Call::Read(0x44),
    Call::Read(0x48),
    Call::Read(0x4C),
    Call::Read(0x50),
    Call::Write(0x18, 0x0001),
    Call::Read(0x14),
    Call::Write(0x18, 0x0001),
    Call::Write(0x24, 0x0010),
    Call::Write(0x30, 0xC004),
    Call::Write(0x34, 0x1120),
    Call::Write(0x38, 0x0200),
    Call::Write(0x28, 0x0001),
    Call::Request(VirtualAddress(0x3ABCDE), Access::Write),
    Call::Read(0x14),
    Call::Write(0x18, 0x0001),
    Call::Drop,
    Call::Drop,
    Call::Request(VirtualAddress(0x3ABCDE), Access::Read),
    Call::Write(0x00, 0x0000),
    Call::Write(0x08, 0x0007),
    Call::Write(0x28, 0x0001),
    Call::Write(0x28, 0x0002),
    Call::Write(0x28, 0x0004),
    Call::Request(VirtualAddress(0x5007FF), Access::Write),
    Call::Read(0x24),
    Call::Request(VirtualAddress(0x500800), Access::Read),
    Call::Read(0x14),
    Call::Write(0x18, 0x0001),
    Call::Drop,
    Call::Request(VirtualAddress(0x612345), Access::Read),
    Call::Write(0x00, 0x4000),
    Call::Write(0x00, 0x8041),
    Call::Read(0x00),
    Call::Write(0x00, 0x1848),
    Call::Read(0x00),
    Call::Write(0x00, 0x1C00),
    Call::Read(0x00),
    Call::Read(0x0C),
    Call::Read(0x10),
    Call::Read(0x14),
    Call::Write(0x18, 0x0001),
    Call::Read(0x14),
    Call::Request(VirtualAddress(0x1000000), Access::Read),
];

// The shift reports, the flushes, and what walks then.
const THEN: [Call; 12] = [
    Call::Shift(VirtualAddress(0x012345)),
    Call::Shift(VirtualAddress(0xFFFFFF)),
    Call::Shift(VirtualAddress(0x612345)),
    Call::Shift(VirtualAddress(0x1000000)),
    Call::Write(0x30, 0xC000),
    Call::Write(0x40, 0x0001),
    Call::Request(VirtualAddress(0x3ABCDE), Access::Read),
    Call::Read(0x24),
    Call::Write(0x3C, 0x0001),
    Call::Request(VirtualAddress(0x012345), Access::Read),
    Call::Read(0x24),
    Call::Read(0x04),
];

// Calls on a device that is out of range.
const LAST: [Call; 5] = [
    Call::Read(0x08),
    Call::Write(0x54, 0x0000),
    Call::Drop,
    Call::Request(VirtualAddress(0x1000000), Access::Read),
    Call::Shift(VirtualAddress(0x1000000)),
];

pub(crate) fn show_all() {
    let tables = tables();
    let lent = Memories {
        on: &[0u8; 16],
        onbase: PhysicalAddress(0),
        ext: &tables,
        extbase: BASE,
    };
    let b = run(Bench::fresh(), &lent, &FIRST);
    let b = odd(b, &lent);
    let b = run(b, &lent, &THEN);
    show::text(b"victim set to 32\n");
    total(run(spoilt(b), &lent, &LAST));
}

// The tables of list A, and at 600000 a coarse table that no memory holds.
fn tables() -> [u8; 8192] {
    let mut m = [0u8; 8192];
    wire::put(
        &mut m,
        0,
        &[0x20000401, 0, 0, 0x11200802, 0, 0x20001003, 0x20004001],
    );
    wire::put(&mut m, 0x448, &[0x10020031]);
    wire::put(&mut m, 0x1004, &[0x10000C33]);
    m
}

// Calls in order, each shown with what it said.
fn run(start: Bench, lent: &Memories, calls: &[Call]) -> Bench {
    let mut b = start;
    for call in calls {
        named(*call);
        b = made(b, lent, PRICES, *call);
    }
    b
}

// Requests with a memory at a base that is none, with memories that meet, and at a price over 4,096.
fn odd(b: Bench, lent: &Memories) -> Bench {
    let call = Call::Request(VirtualAddress(0x012345), Access::Read);
    show::words(b"request, memory at 2", 0x012345, 0);
    let misplaced = Memories {
        onbase: PhysicalAddress(2),
        ..*lent
    };
    let b = made(b, &misplaced, PRICES, call);
    show::words(b"request, memories that meet", 0x012345, 0);
    let meeting = Memories {
        onbase: BASE,
        ..*lent
    };
    let b = made(b, &meeting, PRICES, call);
    show::words(b"request, price over 4096", 0x012345, 0);
    made(b, lent, DEAR, call)
}

// The victim set to 32, which no call does.
fn spoilt(b: Bench) -> Bench {
    let mut bad = b;
    bad.device.bank.victim = 32;
    bad
}

// A call, and its numbers.
fn named(call: Call) {
    match call {
        Call::Write(offset, v) => show::words(b"write", offset, v as u32),
        Call::Read(offset) => show::words(b"read", offset, 0),
        Call::Request(va, Access::Read) => show::words(b"request read", va.0, 0),
        Call::Request(va, Access::Write) => show::words(b"request write", va.0, 0),
        Call::Drop => show::words(b"drop", 0, 0),
        Call::Shift(va) => show::words(b"shift", va.0, 0),
    }
}

// The bench after a call, which is shown with what it said.
fn made(b: Bench, lent: &Memories, prices: Prices, call: Call) -> Bench {
    let s = b.step(Some(call), lent, prices);
    tell(s.said, s.from);
    s.bench
}

// What a call said, as a number and a value, and where the last word of its walk lies.
fn tell(said: Said, from: Place) {
    let mut out = [0u8; 16];
    run::answers::put_said(&mut out, 0, said, from);
    show::said(wire::word_at(&out, 0) as u64, wire::word_at(&out, 8) as u64);
    if wire::word_at(&out, 4) != 0 {
        show::text(b"  from");
        walks::place(from);
        show::end();
    }
}

// Meters and bill at the end.
fn total(b: Bench) {
    show::line(b"fresh requests", b.meters.fresh as u64);
    show::line(b"retries", b.meters.retries as u64);
    show::line(b"words", b.meters.words as u64);
    show::answer(b"total is 84", b.bill.total == 84.0);
}
