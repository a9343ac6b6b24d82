// What `page` answers for values worked out by hand from the paper: the file `stdout` has them, in hexadecimal.
use page::{Access, Kind, PhysicalAddress, VirtualAddress};

pub(crate) fn show_all() {
    kinds();
    // Access bits 0x permit nothing, 10 reading, 11 both.
    for bits in 0..4 {
        right(bits);
    }
    slots();
    // A valid word 0405, preserved 040D.
    flush(0x0405);
    flush(0x040D);
    entry(0x040D, 0x01ABCD);
    entry(0x040D, 0x02ABCD);
}

// The four kinds.
fn kinds() {
    start(Kind::Section, 0x3ABCDE);
    start(Kind::Large, 0x012345);
    start(Kind::Small, 0x012345);
    start(Kind::Tiny, 0x5007FF);
}

// The low bits of a kind, an address, and the start of its page.
fn start(k: Kind, va: u32) {
    show::triple(b"page", page::low_bits(k), va, page::page_start(k, va));
}

// Access bits, then whether they permit reading and whether they permit writing: 1 for yes, 0 for no.
fn right(bits: u32) {
    show::triple(
        b"access",
        bits,
        page::permitted(bits, Access::Read) as u32,
        page::permitted(bits, Access::Write) as u32,
    );
}

// The slot that the bench sheet's request of 012345 fills and the slot of the last tiny page; what the first one
// matches; then a word that is not valid, and a word beyond every layout.
fn slots() {
    slot(Kind::Large, 0x10020000, 3, 0x012345);
    slot(Kind::Tiny, 0xFFFFFFFF, 2, 0xFFFFFF);
    for va in [0x010000, 0x01FFFF, 0x00FFFF, 0x020000] {
        word(0x0405, va);
    }
    word(0x0401, 0x010000);
    word(0xFFFFFFFF, 0xFFFFFFFF);
}

// An address and the CAM and RAM words that are made for it, then what they give.
fn slot(k: Kind, frame: u32, access: u32, va: u32) {
    let w = page::made(k, PhysicalAddress(frame), access, VirtualAddress(va));
    show::triple(b"slot", va, w.cam, w.ram);
    given(w.cam, w.ram, va);
}

// An address, the physical address that CAM and RAM words give for it, and their access bits.
fn given(cam: u32, ram: u32, va: u32) {
    let at = page::translated(cam, ram, VirtualAddress(va));
    show::triple(b"gives", va, at.0, page::access_of(ram));
}

// A CAM word, an address, and whether they match.
fn word(cam: u32, va: u32) {
    show::question(b"match", cam, va, page::matches(cam, VirtualAddress(va)));
}

// A CAM word, and what a global flush makes of it.
fn flush(cam: u32) {
    show::words(b"flush", cam, page::flushed(cam));
    show::end();
}

// A CAM word, an address, and what an entry flush at the address makes of the word.
fn entry(cam: u32, va: u32) {
    show::triple(b"entry", cam, va, page::flushed_at(VirtualAddress(va), cam));
}
