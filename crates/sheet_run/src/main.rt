#![tactic(auto)]
// The bench sheet, run: list A and the empty list built by the builder and asked through the unit. Its file `stdout`
// was worked out by hand. A line ends in a number (0 for a length or an address, else the paper's) and a value.
use builder::BuildError;
use calls::Call;
use decision::Said;
use memory::{Memories, Place};
use page::{Access, PhysicalAddress, VirtualAddress};
use prices::{Price, Prices};
use session::{Bench, Stepped};

// The descriptor of standard output.
const STDOUT_FILENO: i32 = 1;

// The sheet's base.
const BASE: PhysicalAddress = PhysicalAddress(0x20000000);

// The addresses that the empty list is asked for are this far apart.
const STRIDE: u32 = 65537;

// How many of them lie below 2^24.
const ASKED: u32 = 256;

// Prices that are good.
const PRICES: Prices = Prices {
    onchip: Price::Flat(1.0),
    external: Price::Flat(1.0),
};

// List A: large 010000 to 10020000, both; section 300000 to 11200000, read; tiny 500400 to 10000C00, both.
const LIST: [u8; 36] = *b"\x00\x00\x01\x00\x00\x00\x02\x10\x01\x03\x00\x00\
    \x00\x00\x30\x00\x00\x00\x20\x11\x00\x02\x00\x00\
    \x00\x04\x50\x00\x00\x0C\x00\x10\x03\x03\x00\x00";

fn main() {
    whole();
    bare();
}

// List A in the room that it needs and in a word less, and what the sheet asks of it.
fn whole() {
    let mut image = [0u8; 8192];
    show::text(b"list A in 8192 bytes");
    built(builder::build(&LIST, BASE, &mut image));
    show::text(b"list A in 8188 bytes");
    built(builder::build(&LIST, BASE, &mut [0u8; 8188]));
    words(&image);
    requests(&image);
}

// The empty list in the room that it needs, asked at addresses a stride apart and at the last one.
fn bare() {
    let mut image = [0u8; 64];
    show::text(b"empty list in 64 bytes");
    built(builder::build(b"", BASE, &mut image));
    for i in 0..ASKED {
        asked(&image, 0, STRIDE * i, Access::Read);
    }
    asked(&image, 0, 0xFFFFFF, Access::Read);
    asked(&image, 0, 0xFFFFFF, Access::Write);
}

// What the builder answers.
fn built(b: Result<usize, BuildError>) {
    match b {
        Ok(n) => show::said(0, n as u64),
        Err(BuildError::BadMemory) => show::said(4, 0),
        Err(BuildError::BadRecord(i)) => show::said(10, i as u64),
        Err(BuildError::Overlap(i)) => show::said(11, i as u64),
        Err(BuildError::TooLong(c)) => show::said(12, c as u64),
    }
}

// The words that the sheet names: of the first level, words 15 to 32 of the coarse table, and of the fine table.
fn words(image: &[u8]) {
    for i in [0u8, 3, 5] {
        numbered(b"word ", image, 0, i);
    }
    for j in 15..33 {
        word(b"coarse word", image, 0x400 + 4 * j);
    }
    for i in 0..3 {
        numbered(b"fine word ", image, 0x1000, i);
    }
}

// The word with a number, of the table at an offset of an image.
fn numbered(label: &[u8], image: &[u8], from: u16, i: u8) {
    show::text(label);
    show::decimal(i as u64);
    word(b"", image, from as usize + 4 * (i as usize));
}

// The word at an offset of an image.
fn word(label: &[u8], image: &[u8], at: usize) {
    show::line(label, wire::word_at(image, at) as u64);
}

// The requests that the sheet names; the last follows a write of lock base 31 and victim 0.
fn requests(image: &[u8]) {
    for (va, access) in [
        (0x012345, Access::Read),
        (0x3ABCDE, Access::Read),
        (0x3ABCDE, Access::Write),
        (0x5007FF, Access::Read),
        (0x500800, Access::Read),
        (0xFFFFFF, Access::Read),
        (0x1000000, Access::Read),
    ] {
        slots(asked(image, 0, va, access));
    }
    show::text(b"locked ");
    slots(asked(image, 0x7C00, 0x012345, Access::Read));
}

// A fresh device with the base set, on and walking, and the lock register written.
fn start(lent: &Memories, lock: u16) -> Bench {
    let mut b = Bench::fresh();
    for (offset, v) in [(0x1C, 0x2000), (0x08, 7), (0x24, lock)] {
        b = b.step(Some(Call::Write(offset, v)), lent, PRICES).bench;
    }
    b
}

// A request of such a device, shown with what it said, and what it left.
fn asked(image: &[u8], lock: u16, va: u32, access: Access) -> Stepped {
    match access {
        Access::Read => show::text(b"read "),
        Access::Write => show::text(b"write "),
    }
    io::print_hex(STDOUT_FILENO, va as u64, 6);
    let lent = Memories {
        on: &[0u8; 16],
        onbase: PhysicalAddress(0),
        ext: image,
        extbase: BASE,
    };
    let call = Call::Request(VirtualAddress(va), access);
    let s = start(&lent, lock).step(Some(call), &lent, PRICES);
    tell(s.said);
    s
}

// What a call said, as a number, 0 for an address, and a value.
fn tell(said: Said) {
    let mut out = [0u8; 16];
    run::answers::put_said(&mut out, 0, said, Place::Nowhere);
    let number = wire::word_at(&out, 0) as u64;
    let shown = if number < 100 { number } else { 0 };
    show::said(shown, wire::word_at(&out, 8) as u64);
}

// Where the last word came from.
fn source(from: Place) {
    match from {
        Place::OnChip(k) => at(0, k),
        Place::External(k) => at(BASE.0, k),
        Place::Nowhere => show::text(b"  from no word\n"),
    }
}

// The address of a word in a memory at a base.
fn at(base: u32, k: usize) {
    show::line(b"  from the word at", (base as u64).wrapping_add(k as u64));
}

// How many words were read, where the last one came from, and CAM and RAM of the first and the last slot.
fn slots(s: Stepped) {
    show::line(b"  words read", s.bench.meters.words as u64);
    source(s.from);
    let bank = s.bench.device.bank;
    show::words(b"  slot 0", bank.cam[0], bank.ram[0]);
    show::end();
    show::words(b"  slot 31", bank.cam[31], bank.ram[31]);
    show::end();
}
