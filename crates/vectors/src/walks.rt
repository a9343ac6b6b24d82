// What `walk` answers for values worked out by hand from the paper: the file `stdout` has them, in hexadecimal.
// A line has the base of the walk and the virtual address; then how many words were read and for each its address and
// its place: 1 and an index on chip, 2 and an index in the external memory; then what was found: 1, the page's type
// bits, its base, its access bits and the physical address; 0 where there is no page; 2 where a word is missing.
// The next line has the answer where the memories are not tried for refusal 4.
use memory::{Memories, Place, Reads, Source};
use page::{PhysicalAddress, VirtualAddress};
use walk::{Page, Unfound, Walked};

pub(crate) fn show_all() {
    let image = image();
    walks(&image);
    distance(0x10022345, 0x012345, 0x10010000);
    distance(0, 0xFFFC00, -16776192);
    distance(0xFFFFFFFF, 0, 4294967295);
}

// Words of list A's image, placed at 20000000: words of the first table; words 16, 18 and 31 of the coarse table at
// word 256, and beside them a tiny and a small one; word 1 of the fine table at word 1024, and beside it a small and
// a large one, with bits above the type that are ignored.
fn image() -> [u8; 8192] {
    let mut m = [0u8; 8192];
    for (i, w) in [
        (0, 0x20000401),
        (3, 0x11200802),
        (5, 0x20001003),
        (272, 0x10020031),
        (274, 0x10020031),
        (287, 0x10020031),
        (288, 0x10030033),
        (289, 0x10031022),
        (1025, 0x10000C33),
        (1027, 0x10002C32),
        (1028, 0x1004F021),
    ] {
        put(&mut m, i, w);
    }
    m
}

// One of an image's words set.
fn put(m: &mut [u8], i: u16, w: u32) {
    wire::put(m, 4 * (i as usize), &[w]);
}

// The bench sheet's addresses, with the image as the external memory; then a coarse table's tiny word, which is no
// page, its small one, and a fine table's small and large ones.
// Then the image as the on-chip memory, walks from other bases, and refusal 4; and the image's first 64 bytes.
fn walks(image: &[u8; 8192]) {
    let outside = Memories {
        on: &[0u8; 16],
        onbase: PhysicalAddress(0x1000),
        ext: image,
        extbase: PhysicalAddress(0x20000000),
    };
    for va in [
        0x010000, 0x012345, 0x01FFFF, 0x3ABCDE, 0x5007FF, 0x500800, 0xFFFFFF, 0x020000, 0x021234,
        0x500C00, 0x501000,
    ] {
        walked(&outside, 0x20000000, va);
    }
    let onchip = Memories {
        on: image,
        onbase: outside.extbase,
        ext: outside.on,
        extbase: outside.onbase,
    };
    for base in [0x20000000, 0x2000007F, 0x20000080, 0x1000, 0x30000000] {
        walked(&onchip, base, 0x012345);
    }
    let meeting = Memories {
        extbase: onchip.onbase,
        ..onchip
    };
    walked(&meeting, 0x20000000, 0x3ABCDE);
    let few = Memories {
        on: &image[..64],
        ..onchip
    };
    walked(&few, 0x20000000, 0x3ABCDE);
    walked(&few, 0x20000000, 0x012345);
}

// A walk, then the same with the memories not tried for refusal 4.
fn walked(memories: &Memories, base: u32, va: u32) {
    let from = PhysicalAddress(base);
    let at = VirtualAddress(va);
    show::words(b"walk", base, va);
    told(walk::walk(memories, from, at), va);
    told(walk::walk_within(memories, from, at), va);
}

// The words that a walk read and what it found.
fn told(w: Walked, va: u32) {
    words(w.reads);
    match w.found {
        Ok(p) => page(p, va),
        Err(Unfound::NoPage) => show::value(0),
        Err(Unfound::Missing) => show::value(2),
    }
}

// How many words were read, and each of them.
fn words(reads: Reads) {
    show::number(memory::count(reads) as u64);
    match reads {
        Reads::Nothing => {}
        Reads::One(s) => source(s),
        Reads::Two(s, t) => {
            source(s);
            source(t);
        }
    }
}

// A page and the physical address.
fn page(p: Page, va: u32) {
    let physical = walk::descriptors::physical(p, VirtualAddress(va));
    show::numbers(1, page::type_of(p.kind) as u64);
    show::numbers(p.frame.0 as u64, p.access as u64);
    show::value(physical.0 as u64);
}

// A word's address and the place that holds it.
fn source(s: Source) {
    show::number(s.at.0 as u64);
    place(s.place);
}

// A place: 1 and an offset on chip, 2 and an offset in the external memory.
pub(crate) fn place(p: Place) {
    match p {
        Place::OnChip(k) => show::numbers(1, k as u64),
        Place::External(k) => show::numbers(2, k as u64),
        Place::Nowhere => show::numbers(0, 0),
    }
}

// A physical and a virtual address, and whether the first minus the second is what is given.
fn distance(p: u32, v: u32, d: i64) {
    show::question(
        b"distance",
        p,
        v,
        walk::descriptors::distance(PhysicalAddress(p), VirtualAddress(v)) == d,
    );
}
