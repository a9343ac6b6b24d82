// What `memory` answers for values worked out by hand from the paper: the file `stdout` has them, in hexadecimal.
// A place is shown by two numbers: 1 and an index on chip, 2 and an index in the external memory, 0 and 0 for nowhere.
use crate::walks;
use memory::Memories;
use page::PhysicalAddress;

pub(crate) fn show_all() {
    sizes();
    let on = [0x11u8, 0x22, 0x33, 0x44, 0x55, 0x66, 0x77, 0x88];
    let ext = [1u8, 2, 3, 4, 5, 6, 7, 8, 9, 10, 11, 12];
    both(&on, &ext);
    words();
}

// Refusal 4, for one memory.
fn sizes() {
    for (length, base) in [
        (0, 0),
        (4, 2),
        (6, 4),
        (131072, 0),
        (131076, 0),
        (4, 0xFFFFFFFC),
        (8, 0xFFFFFFFC),
    ] {
        one(length, base);
    }
}

// A memory's length and base, and whether it is allowed.
fn one(length: u32, base: u32) {
    show::question(
        b"one",
        length,
        base,
        memory::memory_ok(PhysicalAddress(base), length as usize),
    );
}

// Two memories at bases.
fn lent<'a>(on: &'a [u8], onbase: u32, ext: &'a [u8], extbase: u32) -> Memories<'a> {
    Memories {
        on,
        onbase: PhysicalAddress(onbase),
        ext,
        extbase: PhysicalAddress(extbase),
    }
}

// Eight bytes at 1000 and twelve at other bases: refusal 4, addresses, parts.
fn both(on: &[u8], ext: &[u8]) {
    for extbase in [0x1008, 0x1004, 0xFF4, 0xFF8] {
        two(&lent(on, 0x1000, ext, extbase));
    }
    places(on, ext);
    edges(on, ext);
    let apart = lent(on, 0x1000, ext, 0x2000);
    for at in [0x1004, 0x2001, 0x2008, 0x2009] {
        part(&apart, at);
    }
    part(&lent(on, 0x1000, ext, 0x2002), 0x1000);
}

// The second memory's length and base, and whether it is allowed beside the first.
fn two(memories: &Memories) {
    show::text(b"two");
    show::numbers(memories.ext.len() as u64, memories.extbase.0 as u64);
    show::verdict(memories.ok());
}

// Addresses over eight bytes at 1000 and twelve at 1008, then over memories that meet.
fn places(on: &[u8], ext: &[u8]) {
    let beside = lent(on, 0x1000, ext, 0x1008);
    for at in [
        0xFFF, 0x1000, 0x1004, 0x1005, 0x1008, 0x100E, 0x1010, 0x1011,
    ] {
        place(&beside, at);
    }
    place(&lent(on, 0x1000, ext, 0x1004), 0x1000);
}

// A memory without bytes at 1004; then the last four bytes below 2^32 and twelve at 0.
fn edges(on: &[u8], ext: &[u8]) {
    two(&lent(on, 0x1000, b"", 0x1004));
    let last = lent(b"four", 0xFFFFFFFC, ext, 0);
    place(&last, 0xFFFFFFFC);
    place(&last, 0xFFFFFFFD);
}

// The second memory's base and an address; the address's place, with the memories tried for refusal 4, then not tried.
fn place(memories: &Memories, at: u32) {
    show::words(b"place", memories.extbase.0, at);
    walks::place(memories.locate(PhysicalAddress(at)));
    walks::place(memories.locate_within(PhysicalAddress(at)));
    show::end();
}

// The second memory's base and an address; the length and word of the part there, with the memories tried for refusal
// 4, then not tried.
fn part(memories: &Memories, at: u32) {
    show::words(b"part", memories.extbase.0, at);
    bytes(memories.fetch(PhysicalAddress(at)));
    bytes(memories.fetch_within(PhysicalAddress(at)));
    show::end();
}

// A part's length and word.
fn bytes(s: &[u8]) {
    show::numbers(s.len() as u64, wire::word_of(s) as u64);
}

// Little-endian words: of the bytes 01 04 00 20, of three bytes and of five.
fn words() {
    show::line(b"word", wire::word(0x01, 0x04, 0x00, 0x20) as u64);
    bytes(b"abc");
    bytes(b"abcde");
    show::end();
}
