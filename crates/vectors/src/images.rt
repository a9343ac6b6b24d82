// What `records` and `builder` answer for values worked out by hand from the paper: the file `stdout` has them.
// A record is three words: the virtual and the physical address, and a word of type and access (access 3 and type 1:
// 301).
use builder::BuildError;
use page::{Access, PhysicalAddress, VirtualAddress};
use records::Denial;

// The bench sheet's base.
pub const BASE: PhysicalAddress = PhysicalAddress(0x20000000);

// The records of list A: large 010000 to 10020000, both; section 300000 to 11200000, read; tiny 500400 to 10000C00,
// both.
const A: [u32; 9] = [
    0x010000, 0x10020000, 0x0301, 0x300000, 0x11200000, 0x0200, 0x500400, 0x10000C00, 0x0303,
];

pub(crate) fn show_all() {
    sheet();
    short();
    misplaced();
    bad();
    overlaps();
    small();
    backwards();
    none();
    meanings();
}

// The bytes of three records.
fn list(words: &[u32; 9]) -> [u8; 36] {
    let mut bytes = [0u8; 36];
    wire::put(&mut bytes, 0, words);
    bytes
}

// List A, and words of its image.
fn sheet() {
    let mut m = [0xEEu8; 8196];
    built(b"list A in 8,196", &list(&A), BASE, &mut m);
    first(&m, &[0, 1, 3, 5]);
    word(b"behind the first level", &m, 0x40);
    for i in [15, 16, 31, 32] {
        numbered(b"coarse word ", &m, 0x400, i);
    }
    word(b"between the tables", &m, 0x800);
    fine(&m, &[0, 1, 2]);
    word(b"the last word", &m, 0x1FFC);
    word(b"the word behind it", &m, 0x2000);
}

// List A in the room that it needs and in a word less.
fn short() {
    let a = list(&A);
    let mut m = [0xEEu8; 8192];
    built(b"list A in 8,192", &a, BASE, &mut m);
    let mut less = [0xEEu8; 8188];
    refused(b"list A in 8,188", &a, BASE, &mut less);
    word(b"word 0 then", &less, 0);
}

// A byte at two bases that cannot be, and in room that cannot be.
fn misplaced() {
    let mut m = [0xEEu8; 8192];
    refused(b"at 20000400", b"x", PhysicalAddress(0x20000400), &mut m);
    refused(b"at FFFFF000", b"x", PhysicalAddress(0xFFFFF000), &mut m);
    let mut odd = [0xEEu8; 66];
    refused(b"in 66", b"x", BASE, &mut odd);
    word(b"word 0 then", &odd, 0);
}

// Lists that are refused for one of their records.
fn bad() {
    let mut m = [0xEEu8; 64];
    refused(b"one byte", b"x", BASE, &mut m);
    let records: [(&[u8], [u32; 3]); 6] = [
        (b"type 4", [0x010000, 0x10020000, 0x0304]),
        (b"virtual 1000000", [0x01000000, 0x10020000, 0x0301]),
        (b"virtual 010400, small", [0x010400, 0x10020000, 0x0302]),
        (b"physical 10020800, small", [0x010000, 0x10020800, 0x0302]),
        (b"access 1", [0x010000, 0x10020000, 0x0102]),
        (b"byte 11 not zero", [0x010000, 0x10020000, 0x01000302]),
    ];
    for (label, words) in records {
        let mut record = [0u8; 12];
        wire::put(&mut record, 0, &words);
        refused(label, &record, BASE, &mut m);
    }
    refused(b"second record short", &list(&A)[..13], BASE, &mut m);
    word(b"word 0 then", &m, 0);
}

// Two records, one over the other.
fn overlaps() {
    let mut m = [0xEEu8; 64];
    let pairs: [(&[u8], [u32; 6]); 3] = [
        (
            b"large 010000, small 01F000",
            [0x010000, 0x10020000, 0x0301, 0x01F000, 0x30000000, 0x0302],
        ),
        (
            b"small 01F000, large 010000",
            [0x01F000, 0x30000000, 0x0302, 0x010000, 0x10020000, 0x0301],
        ),
        (
            b"twice, and with access 0",
            [0x010000, 0x10020000, 0x0301, 0x010000, 0x10020000, 0x0001],
        ),
    ];
    for (label, words) in pairs {
        let mut pair = [0u8; 24];
        wire::put(&mut pair, 0, &words);
        refused(label, &pair, BASE, &mut m);
    }
}

// Small 000000, tiny 001000 and large 010000 in one fine table.
fn small() {
    let mut m = [0xEEu8; 8192];
    let records = list(&[
        0x000000, 0x10000000, 0x0202, 0x001000, 0x10100400, 0x0303, 0x010000, 0x10020000, 0x0201,
    ]);
    built(b"small, tiny and large", &records, BASE, &mut m);
    first(&m, &[0]);
    fine(&m, &[0, 3, 4, 5, 63, 64, 127, 128]);
}

// Small 200000, large 100000 and tiny 000000: a table for each of three megabytes.
fn backwards() {
    let mut m = [0xEEu8; 12288];
    let records = list(&[
        0x200000, 0x10000000, 0x0302, 0x100000, 0x10010000, 0x0301, 0x000000, 0x10100400, 0x0303,
    ]);
    built(b"megabytes 2, 1, 0", &records, BASE, &mut m);
    first(&m, &[0, 1, 2]);
}

// The empty list.
fn none() {
    let mut m = [0xEEu8; 68];
    built(b"no records", b"", BASE, &mut m);
    first(&m, &[15]);
    word(b"the word behind it", &m, 64);
}

// A list built in a memory, and what was answered.
fn built(label: &[u8], records: &[u8], base: PhysicalAddress, m: &mut [u8]) {
    show::text(label);
    answered(builder::build(records, base, m));
}

// A list that is refused in a memory of EE; says so where the first word is another then.
fn refused(label: &[u8], records: &[u8], base: PhysicalAddress, m: &mut [u8]) {
    built(label, records, base, m);
    if wire::word_at(m, 0) != 0xEEEEEEEE {
        show::text(b"changed\n");
    }
}

// Words of the first level.
fn first(m: &[u8], words: &[u8]) {
    for i in words {
        numbered(b"word ", m, 0, *i);
    }
}

// Words of the fine table.
fn fine(m: &[u8], words: &[u8]) {
    for i in words {
        numbered(b"fine word ", m, 0x1000, *i);
    }
}

// The word with a number, of the table at an offset.
fn numbered(label: &[u8], m: &[u8], from: u16, i: u8) {
    show::text(label);
    show::decimal(i as u64);
    show::value(wire::word_at(m, from as usize + 4 * (i as usize)) as u64);
}

// The word at an offset of a memory.
fn word(label: &[u8], m: &[u8], at: usize) {
    show::line(label, wire::word_at(m, at) as u64);
}

// What a build answered.
pub(crate) fn answered(b: Result<usize, BuildError>) {
    match b {
        Ok(n) => show::line(b": length", n as u64),
        Err(BuildError::BadMemory) => show::text(b": bad memory\n"),
        Err(BuildError::BadRecord(i)) => show::line(b": bad record", i as u64),
        Err(BuildError::Overlap(i)) => show::line(b": overlap", i as u64),
        Err(BuildError::TooLong(c)) => show::line(b": too long, records", c as u64),
    }
}

// What list A means, for a read and for a write, and then for a read alone.
fn meanings() {
    for va in [0x012345, 0x3ABCDE] {
        meant(b"read ", va, Access::Read);
        meant(b"write ", va, Access::Write);
    }
    for va in [0x5007FF, 0x500800, 0xFFFFFF] {
        meant(b"read ", va, Access::Read);
    }
}

// What list A means at an address.
fn meant(label: &[u8], va: u32, a: Access) {
    show::text(label);
    show::address(va, 6);
    match records::lists::means(&list(&A), VirtualAddress(va), a) {
        Ok(p) => show::line(b":", p.0 as u64),
        Err(Denial::Permission) => show::text(b": permission fault\n"),
        Err(Denial::Translation) => show::text(b": translation fault\n"),
    }
}
