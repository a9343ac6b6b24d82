// What `parting` answers for pairs of images worked out by hand from the paper: the file `stdout` has it, in
// hexadecimal. A line has whose the part is, where it begins and how many words differ, or 4 where the call is
// refused; then how many bytes the part has and its first word, 0 where it has none. The signed image has the words
// 11, 22, 33, 44 and 55, and is 14 bytes long, but where it is said.
use parting::{Owner, Parting};

pub(crate) fn show_all() {
    let mut signed = [0u8; 20];
    wire::put(&mut signed, 0, &[0x11, 0x22, 0x33, 0x44, 0x55]);
    alike(signed);
    differing(signed);
    lengths(signed);
    refusals(signed);
    long();
}

// Words that agree: all of them; as many as the shorter one has, with 8 bytes behind them, which begin with 44; none.
fn alike(signed: [u8; 20]) {
    let new = signed;
    compared(b"equal", &new, &signed);
    compared(b"new shorter", &new[..12], &signed);
    compared(b"signed shorter", &new, &signed[..12]);
    compared(b"new empty", b"", &signed);
    compared(b"signed empty", &new, b"");
    compared(b"both empty", b"", b"");
}

// The highest byte of word 1, then also the lowest of word 4; the part is the new image's, from word 1 on.
fn differing(signed: [u8; 20]) {
    let mut new = signed;
    wire::put(&mut new, 4, &[0x01000022]);
    compared(b"word 1", &new, &signed);
    wire::put(&mut new, 16, &[0x56]);
    compared(b"words 1 and 4", &new, &signed);
    compared(b"the same, exchanged", &signed, &new);
}

// Word 1 differs and the lengths do too: a part of the new image, up to its own end; words past the shorter one's end
// are not counted.
fn lengths(signed: [u8; 20]) {
    let mut new = signed;
    wire::put(&mut new, 4, &[0x23, 0x34]);
    compared(b"words 1 and 2, new shorter", &new[..12], &signed);
    compared(b"words 1 and 2, signed shorter", &new, &signed[..8]);
}

// A length that is no multiple of 4, of the one or the other, whatever the words.
fn refusals(signed: [u8; 20]) {
    let new = signed;
    compared(b"new of 19 bytes", &new[..19], &signed);
    compared(b"signed of 3 bytes", &new, &signed[..3]);
    compared(b"both of 18 bytes", &new[..18], &signed[..18]);
}

// 200 words of zeros (hexadecimal 320 bytes), and others: word 63, at FC; then words 64, 127, 128 and the last too;
// then the first alone.
fn long() {
    let signed = [0u8; 800];
    let mut new = [0u8; 800];
    compared(b"200 zeros", &new, &signed);
    wire::put(&mut new, 0xFC, &[7]);
    compared(b"word 63", &new, &signed);
    wire::put(&mut new, 0x100, &[8]);
    wire::put(&mut new, 0x1FC, &[9, 10]);
    wire::put(&mut new, 796, &[11]);
    compared(b"words 63, 64, 127, 128 and 199", &new, &signed);
    compared(b"the same from word 64 on", &new[256..], &signed[256..]);
}

// What comparing two images says, and the part.
fn compared<'a>(label: &[u8], new: &'a [u8], signed: &'a [u8]) {
    show::text(label);
    said(parting::compare(new, signed));
    let p = parting::part(new, signed);
    show::text(b" part");
    show::numbers(p.len() as u64, wire::word_at(p, 0) as u64);
    show::end();
}

// An answer of the second call.
fn said(parting: Option<Parting>) {
    match parting {
        None => show::text(b": 4"),
        Some(p) => {
            named(p.owner);
            show::numbers(p.start as u64, p.words as u64);
        }
    }
}

// Whose a part is.
fn named(owner: Owner) {
    match owner {
        Owner::New => show::text(b": new"),
        Owner::Signed => show::text(b": signed"),
    }
}
