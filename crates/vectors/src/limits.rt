// What `builder` answers for lists of as many records as it takes, and of more, worked out by hand from the paper:
// the file `stdout` has it. All records are tiny pages that follow one another, virtual from 000000 and physical from
// 10000000, both read and written; so the first 1,024 are the words of one fine table, which ends at 2000. Behind
// each answer stand word 0 and the fine table's words 699 and 1,023.
ghost use Rattle.std.specs.Prelude.{◌≤◌};

use crate::images;

pub(crate) fn show_all() {
    let mut list = pages();
    built(b"700 records", &list, 8400);
    built(b"1,023 records", &list, 12276);
    built(b"1,024 records", &list, 12288);
    built(b"1,024 records but a byte", &list, 12287);
    built(b"1,024 records and a byte", &list, 12289);
    built(b"1,025 records", &list, 12300);
    put_page(&mut list, 1023, 0);
    built(b"1,025 records, the 1,024th over the first", &list, 12300);
}

// The pages of 1,025 records.
fn pages() -> [u8; 12300] {
    let mut list = [0u8; 12300];
    for i in 0..1025 {
        put_page(&mut list, i, i as u32);
    }
    list
}

// A page put as one of a list's records.
fn put_page(list: &mut [u8], i: usize, page: u32) {
    let from = page % 2048 * 1024;
    wire::put(
        list,
        12 * (i % 1025),
        &[from, 0x10000000 + from, 0x00000303],
    );
}

// The first bytes of a list, built in a memory of EE: what was answered, and three words then.
fn built(label: &[u8], list: &[u8; 12300], bytes: usize)
    requires { bytes ≤ 12300 }
{
    let mut m = [0xEEu8; 8192];
    show::text(label);
    images::answered(builder::build(&list[..bytes], images::BASE, &mut m));
    show::triple(
        b"words",
        wire::word_at(&m, 0),
        wire::word_at(&m, 6892),
        wire::word_at(&m, 8188),
    );
}
