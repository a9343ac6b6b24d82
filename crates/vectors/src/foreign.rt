// What `audit` answers for images worked out by hand from the paper: the file `stdout` has it, in hexadecimal.
// A line has the paper's number, 0 where nothing is refused, and what stands beside it: for a check the pages, for a
// list its bytes, for 17 and 18 the address of the refused word, for 12 the pages. Below a list stand its records,
// each a virtual and a physical address and a word of type and access (access 3 and type 1: 301), and the word behind
// them, in a list of EE.
ghost use Rattle.std.specs.Prelude.{◌≤◌};

use crate::images::BASE;
use audit::{ImageError, ListError};
use page::PhysicalAddress;

pub(crate) fn show_all() {
    sizes();
    sections();
    ends();
    coarse();
    fine();
    order();
    shared();
}

// Memories of zeros, which have no page. 17 names the base where 64 bytes of first-level words have no room; before
// it comes 4, for a length that is no multiple of 4, a base that is none of 128, and an end past 2^32, which is 80
// bytes (hexadecimal) behind FFFFFF80.
fn sizes() {
    let m = [0u8; 132];
    zeros(&m[..0], BASE.0);
    zeros(&m[..60], BASE.0);
    zeros(&m[..64], BASE.0);
    zeros(&m[..66], BASE.0);
    zeros(&m[..0], 0x20000040);
    zeros(&m[..64], 0x20000040);
    zeros(&m[..64], 0x20000004);
    zeros(&m[..64], 0xFFFFFF80);
    zeros(&m[..128], 0xFFFFFF80);
    zeros(&m, 0xFFFFFF80);
}

// Zeros at a base.
fn zeros(m: &[u8], base: u32) {
    show::text(b"zeros");
    show::numbers(m.len() as u64, base as u64);
    judged(audit::check(m, PhysicalAddress(base)));
}

// The first level alone: a section in megabytes 0 to 3, with the accesses 0 to 3 in bits 11:10, the last with every
// ignored bit set. All four are pages, so the list has 48 bytes: it has no room in 47, where no byte changes, and in
// 52 the last word stays.
fn sections() {
    let mut m = [0u8; 64];
    wire::put(&mut m, 0, &[0x11000002, 0x11100402, 0x11200802, 0x113FFFFE]);
    checked(b"sections", &m);
    listed(b"in 48 bytes", &m, 48);
    listed(b"in 47 bytes", &m, 47);
    listed(b"in 52 bytes", &m, 52);
}

// Tables about the memory's ends, without pages: a coarse one of 400 bytes (hexadecimal) at 20000400, named by word
// 1; then one that ends where the memory begins, named by word 2.
fn ends() {
    let mut m = [0u8; 2048];
    wire::put(&mut m, 4, &[0x20000401]);
    checked(b"coarse table up to the end", &m);
    checked(b"a word past the end", &m[0..0x7FC]);
    wire::put(&mut m, 4, &[0, 0x1FFFFC01]);
    checked(b"coarse table below the base", &m);
}

// A coarse table at 20000400 for megabyte 0. Its words 16 to 31, from 440 on, are a large page. With another access
// in the sixth of them the first is named; with a fault in place of the first, which is no page, the second is. Then
// the page has access 1, and behind it stand a tiny word, which is no page of a coarse table, and a small one of
// access 0 for 021000, all its ignored bits set.
fn coarse() {
    let mut m = [0u8; 2048];
    wire::put(&mut m, 0, &[0x20000401]);
    wire::put_run(&mut m, 0x440, 16, 0x10020031);
    checked(b"coarse large page", &m);
    wire::put(&mut m, 0x454, &[0x10020021]);
    checked(b"its word 5 odd", &m);
    wire::put(&mut m, 0x454, &[0x10020031]);
    wire::put(&mut m, 0x440, &[0x10020030]);
    checked(b"a fault at its head", &m);
    wire::put_run(&mut m, 0x440, 16, 0x10020011);
    wire::put(&mut m, 0x480, &[0x10030433, 0x10031FCE]);
    listed(b"no access, tiny and small behind", &m, 52);
}

// A fine table of 1000 bytes (hexadecimal) at 20001000 for megabyte 5: words 0 to 3 are a small page, words 64 to
// 127, from 1100 on and for 510000, a large one, and the last word a tiny one. Then the memory ends a word earlier;
// then the large page's last word is a fault; then also the third of the small page's words has an ignored bit set.
fn fine() {
    let mut m = [0u8; 8192];
    wire::put(&mut m, 0x14, &[0x20001003]);
    wire::put_run(&mut m, 0x1000, 4, 0x10000032);
    wire::put_run(&mut m, 0x1100, 64, 0x10020031);
    wire::put(&mut m, 0x1FFC, &[0x10000C13]);
    listed(b"fine small, large and tiny page", &m, 52);
    checked(b"fine table a word past the end", &m[0..0x1FFC]);
    wire::put(&mut m, 0x11FC, &[0]);
    checked(b"the large page's last word a fault", &m);
    wire::put(&mut m, 0x1008, &[0x10000036]);
    checked(b"the small page's third word odd", &m);
}

// A large word that stands alone in the coarse table of megabyte 1, and behind it in order a table outside, of
// megabyte 2; then megabytes 1 and 2 change places. A list is refused alike, whatever its room.
fn order() {
    let mut m = [0u8; 2048];
    wire::put(&mut m, 0x7FC, &[0x10020031]);
    wire::put(&mut m, 4, &[0x20000401, 0x30000001]);
    checked(b"unequal, then outside", &m);
    wire::put(&mut m, 4, &[0x30000001, 0x20000401]);
    checked(b"outside, then unequal", &m);
    listed(b"the same in no bytes", &m, 0);
}

// The small page for 002000 of one coarse table, in megabytes 4 and 9. Then a coarse table that begins with the first
// level: the word that names it is a large word too, and stands alone.
fn shared() {
    let mut m = [0u8; 2048];
    wire::put(&mut m, 0x10, &[0x20000401]);
    wire::put(&mut m, 0x24, &[0x20000401]);
    wire::put(&mut m, 0x408, &[0x12345022]);
    listed(b"two megabytes of one table", &m, 52);
    wire::put(&mut m, 8, &[0x20000001]);
    checked(b"a table over the first level", &m);
}

// What the check of an image answers.
fn checked(label: &[u8], image: &[u8]) {
    show::text(label);
    judged(audit::check(image, BASE));
}

// An answer of the check.
fn judged(v: Result<usize, ImageError>) {
    match v {
        Ok(n) => show::said(0, n as u64),
        Err(e) => refused(e),
    }
}

// Why an image is refused.
fn refused(e: ImageError) {
    match e {
        ImageError::BadMemory => show::said(4, 0),
        ImageError::Outside(at) => show::said(17, at.0 as u64),
        ImageError::Unequal(at) => show::said(18, at.0 as u64),
    }
}

// What listing an image in the first bytes of a list of EE answers, and the list then.
fn listed(label: &[u8], image: &[u8], room: usize)
    requires { room ≤ 52 }
{
    let mut list = [0xEEu8; 52];
    show::text(label);
    let answer = audit::list(image, BASE, &mut list[..room]);
    inventoried(answer);
    records(&list, answer.unwrap_or(0));
}

// An answer of the list.
fn inventoried(v: Result<usize, ListError>) {
    match v {
        Ok(n) => show::said(0, n as u64),
        Err(ListError::Image(e)) => refused(e),
        Err(ListError::TooShort(n)) => show::said(12, n as u64),
    }
}

// The records in the first bytes of a list, at most four, and the word behind them.
fn records(list: &[u8], bytes: usize) {
    for i in 0..4 {
        let at = 12 * i;
        if at < bytes {
            show::triple(
                b"",
                wire::word_at(list, at),
                wire::word_at(list, at + 4),
                wire::word_at(list, at + 8),
            );
        }
    }
    show::value(wire::word_at(list, bytes) as u64);
}
