// What `crc` and `recording` answer for bytes worked out by hand from the paper: the file `stdout` has it, in
// hexadecimal but for the paper's numbers. A line of the writer or the reader has the number, 0 where nothing is
// refused, and what stands beside it: the bytes written, for 12 the bytes needed, for 16 the index of the call or
// block; and whether the lent memory, of EE, is as it should be in every byte. A call is three words: kind, offset or
// access as the second byte, two zero bytes; address; value. So a drop is 4, 0, 0. A block is the word of the number
// of its calls and, from bit 16 on, of its own; 504 bytes of calls and zeros; and the check of these 508 bytes.
ghost use Rattle.std.specs.Prelude.{◌≤◌, length};

use recording::{Flaw, Progress, RecordingError};

pub(crate) fn show_all() {
    checks();
    let calls = drops();
    recordings(&calls);
    alone(&calls);
    lengths(&calls);
    fields();
    let m = blocks(&calls);
    turned(m);
    headings(m);
    bodies(m);
    ends(&m);
    behind(m, &calls);
    parts(m, &calls);
    carried(&m);
    misplaced(&m);
    most(&calls);
}

// Checks: what is published for nine digits, no bytes, a letter and 32 zeros; FF, with which FFFFFF00 moves down by
// eight bits and is turned; as many zeros as a block's check is of; and seven bytes, eight (nine are above), sixteen
// and seventeen, as they are taken eight at a time.
fn checks() {
    let zeros = [0u8; 508];
    checked(b"123456789", b"123456789");
    checked(b"no bytes", &zeros[..0]);
    checked(b"a", b"a");
    checked(b"FF", &[0xFF]);
    checked(b"32 zero bytes", &zeros[..32]);
    checked(b"508 zero bytes", &zeros);
    checked(b"1234567", b"1234567");
    checked(b"12345678", b"12345678");
    checked(b"1234567812345678", b"1234567812345678");
    checked(b"12345678123456789", b"12345678123456789");
}

// The check of bytes.
fn checked(label: &[u8], bytes: &[u8]) {
    show::text(b"check of ");
    show::line(label, crc::crc32(bytes) as u64);
}

// The bytes of 43 drops, one more than a block holds.
fn drops() -> [u8; 516] {
    let mut list = [0u8; 516];
    for i in 0..43 {
        wire::put(&mut list, 12 * i, &[4, 0, 0]);
    }
    list
}

// Drops in no block, in one and in two, the first of which is that of 42; then a write of 1234 at offset 10, a read
// at FC, a request to write at FFFFFFFE, a drop, and a shift report at 00123456.
fn recordings(calls: &[u8; 516]) {
    recorded(b"no calls", &calls[..0], 0);
    recorded(b"one drop", &calls[..12], 512);
    recorded(b"42 drops", &calls[..504], 512);
    recorded(b"43 drops", calls, 1024);
    let mut kinds = [0u8; 60];
    wire::put(&mut kinds, 0, &[0x1001, 0, 0x1234, 0xFC02, 0, 0]);
    wire::put(&mut kinds, 24, &[0x0103, 0xFFFFFFFE, 0, 4, 0, 0]);
    wire::put(&mut kinds, 48, &[5, 0x00123456, 0]);
    recorded(b"every kind", &kinds, 512);
}

// Calls written in 1,024 bytes, what stands then at two blocks, and what is read back from as many bytes as the
// recording should have.
fn recorded(label: &[u8], calls: &[u8], bytes: usize)
    requires { bytes ≤ 1024 }
{
    let mut m = [0xEEu8; 1024];
    show::text(label);
    answered(recording::write(calls, &mut m));
    show::end();
    let (first, second) = m.split_at(512);
    framed(first);
    framed(second);
    read(b" read back", &m[..bytes], calls);
}

// The first three words of a block, and its check.
fn framed(b: &[u8]) {
    show::words(b" words", wire::word_at(b, 0), wire::word_at(b, 4));
    show::number(wire::word_at(b, 8) as u64);
    show::line(b" check", wire::word_at(b, 508) as u64);
}

// Single blocks: as in the recording of 43 drops; the last number that there is; then nothing, as the number, the
// calls or the room are not as said.
fn alone(calls: &[u8; 516]) {
    single(b"block 1 of one drop:", 1, &calls[..12], 512);
    single(b"block FFFF of 42 drops:", 0xFFFF, &calls[..504], 512);
    single(b"block 10000 of one drop:", 0x10000, &calls[..12], 512);
    single(b"block 0 of 43 drops:", 0, calls, 512);
    single(b"block 0 of 11 bytes:", 0, &calls[..11], 512);
    single(b"block 0 in 511 bytes:", 0, &calls[..12], 511);
}

// A block written in the first bytes of 512.
fn single(label: &[u8], number: usize, calls: &[u8], room: usize)
    requires { room ≤ 512 }
{
    let mut m = [0xEEu8; 512];
    recording::write_block(number, calls, &mut m[..room]);
    show::text(label);
    framed(&m);
}

// What the writer refuses for a length: a call that lacks a byte, the first or the second; then room that lacks one;
// and both, which is 16.
fn lengths(calls: &[u8; 516]) {
    unwritten(b"11 bytes", &calls[..11], 1024);
    unwritten(b"23 bytes", &calls[..23], 1024);
    unwritten(b"one drop in 511 bytes", &calls[..12], 511);
    unwritten(b"43 drops in 1,023 bytes", calls, 1023);
    unwritten(b"11 bytes in none", &calls[..11], 0);
}

// Calls that the writer refuses for their kind, for the bytes behind it, or for the value or address of a write; a
// write's highest value is accepted. Then calls that it refuses for a field that their kind does not use, and a
// request for an access over 1.
fn fields() {
    let calls: [(&[u8], [u32; 3]); 16] = [
        (b"kind 0", [0, 0, 0]),
        (b"kind 6", [6, 0, 0]),
        (b"third byte 1", [0x00010004, 0, 0]),
        (b"fourth byte 1", [0x01000004, 0, 0]),
        (b"write of FFFF", [0x1001, 0, 0xFFFF]),
        (b"write of 10000", [0x1001, 0, 0x10000]),
        (b"write with an address", [0x1001, 1, 0]),
        (b"read with an address", [0x1002, 1, 0]),
        (b"read with a value", [0x1002, 0, 1]),
        (b"request with access 2", [0x0203, 0, 0]),
        (b"request with a value", [0x0103, 0, 1]),
        (b"drop with an access", [0x0104, 0, 0]),
        (b"drop with an address", [4, 1, 0]),
        (b"drop with a value", [4, 0, 1]),
        (b"shift with an access", [0x0105, 0, 0]),
        (b"shift with a value", [5, 0, 1]),
    ];
    for (label, call) in calls {
        second(label, &call);
    }
}

// A call of three words behind a drop, so call 1, written.
fn second(label: &[u8], call: &[u32; 3]) {
    let mut calls = [0u8; 24];
    wire::put(&mut calls, 0, &[4, 0, 0]);
    wire::put(&mut calls, 12, call);
    unwritten(label, &calls, 1024);
}

// Calls written in the first bytes of 1,024, what was answered, and whether all bytes are as before.
fn unwritten(label: &[u8], calls: &[u8], room: usize)
    requires { room ≤ 1024 }
{
    let before = [0xEEu8; 1024];
    let mut m = before;
    show::text(label);
    answered(recording::write(calls, &mut m[..room]));
    show::answer(b" unchanged", m == before);
}

// The two blocks of 43 drops, which are damaged below: block 1, with the number at 512, its drop at 516 and zeros
// from 528 up to 1,020.
fn blocks(calls: &[u8]) -> [u8; 1024] {
    let mut m = [0u8; 1024];
    let _ = recording::write(calls, &mut m);
    m
}

// The blocks with other words from an offset on, and the checks put right again.
fn damaged(m: [u8; 1024], at: usize, words: &[u32]) -> [u8; 1024] {
    let mut out = m;
    wire::put(&mut out, at, words);
    let (first, last) = out.split_at_mut(512);
    put_check(first);
    put_check(last);
    out
}

// The check of a block put right.
fn put_check(block: &mut [u8])
    requires { 512 ≤ length block.old }
{
    let (body, _) = block.split_at(508);
    let check = crc::crc32(body);
    wire::put(block, 508, &[check]);
}

// The drop made a shift report, which by itself is a call, and the check CA4F9B3E made odd; neither check is put right.
fn turned(m: [u8; 1024]) {
    let mut other = m;
    wire::put(&mut other, 516, &[5]);
    refused(b"a bit of a call turned", &other, 42);
    wire::put(&mut other, 516, &[4]);
    wire::put(&mut other, 1020, &[0xCA4F9B3F]);
    refused(b"a bit of the check turned", &other, 42);
}

// Another number, and another count: none, with the drop taken away; one over 42; two, with a second call of kind 0.
fn headings(m: [u8; 1024]) {
    refused(b"number 2", &damaged(m, 512, &[0x00020001]), 42);
    refused(b"number 0", &damaged(m, 512, &[0x00000001]), 42);
    refused(b"count 0", &damaged(m, 512, &[0x00010000, 0]), 42);
    refused(b"count 2B", &damaged(m, 512, &[0x0001002B]), 42);
    refused(b"count 2", &damaged(m, 512, &[0x00010002]), 42);
}

// Kind 6 for the drop, and the first and the last byte of the unused records.
fn bodies(m: [u8; 1024]) {
    refused(b"kind 6 for the drop", &damaged(m, 516, &[6]), 42);
    refused(b"the first unused byte 1", &damaged(m, 528, &[1]), 42);
    refused(
        b"the last unused byte 1",
        &damaged(m, 1016, &[0x01000000]),
        42,
    );
}

// Block 1 without its last byte, and with its first alone.
fn ends(m: &[u8; 1024]) {
    refused(b"511 bytes at the end", &m[..1023], 42);
    refused(b"one byte at the end", &m[..513], 42);
}

// Block 0 with 41 calls, the last of its drops taken away at 496: block 1 may not follow it, and by itself it is a
// recording.
fn behind(m: [u8; 1024], calls: &[u8; 516]) {
    let fewer = damaged(damaged(m, 0, &[41]), 496, &[0]);
    refused(b"behind 41 calls", &fewer, 41);
    let (first, _) = fewer.split_at(512);
    read(b"41 calls alone", first, &calls[..492]);
}

// Each block alone; block 0 with its first drop made a shift report; room that lacks a byte; and no room for a bad
// block, which is 16.
fn parts(m: [u8; 1024], calls: &[u8; 516]) {
    let mut other = m;
    wire::put(&mut other, 4, &[5]);
    let (first, second) = m.split_at(512);
    read(b"block 0 alone", first, &calls[..504]);
    unread(b"block 1 alone", second, 520);
    unread(b"a bit of block 0 turned", &other, 520);
    unread(b"43 drops in 515 bytes", &m, 515);
    unread(b"block 1 alone in none", second, 0);
}

// A recording that is refused for block 1, and what is wrong with that behind one block of so many calls.
fn refused(label: &[u8], r: &[u8], calls: usize)
    requires { 512 ≤ length r.now }
{
    unread(label, r, 520);
    taken(b" taken", Progress { blocks: 1, calls }, &r[512..]);
}

// A recording read into the first bytes of 520, what was answered, and whether all bytes are as before.
fn unread(label: &[u8], r: &[u8], room: usize)
    requires { room ≤ 520 }
{
    let before = [0xEEu8; 520];
    let mut m = before;
    show::text(label);
    answered(recording::read(r, &mut m[..room]));
    show::answer(b" unchanged", m == before);
}

// A recording read into 520 bytes, what was answered, and whether they are these calls then and EE behind them.
fn read(label: &[u8], r: &[u8], calls: &[u8]) {
    let mut m = [0xEEu8; 520];
    let mut meant = m;
    wire::put_bytes(&mut meant, 0, calls);
    show::text(label);
    answered(recording::read(r, &mut m));
    show::answer(b" the same", m == meant);
}

// An answer of the writer or the reader.
fn answered(w: Result<usize, RecordingError>) {
    match w {
        Ok(n) => numbered(0, n),
        Err(RecordingError::Bad(i)) => numbered(16, i),
        Err(RecordingError::TooShort(n)) => numbered(12, n),
    }
}

// The paper's number, and what stands beside it.
fn numbered(k: u64, n: usize) {
    show::text(b": ");
    show::decimal(k);
    show::number(n as u64);
}

// The blocks of 43 drops taken one after another, each with its calls, and a block behind the last.
fn carried(m: &[u8; 1024]) {
    let one = taken(b"block 0", Progress::start(), &m[..512]);
    called(&m[..512]);
    let two = taken(b"block 1 behind it", one, &m[512..1024]);
    called(&m[512..1024]);
    taken(b"block 1 again", two, &m[512..1024]);
}

// Blocks whose number is not the next.
fn misplaced(m: &[u8; 1024]) {
    taken(
        b"block 0 behind block 0",
        Progress {
            blocks: 1,
            calls: 42,
        },
        &m[..512],
    );
    taken(b"block 1 at the start", Progress::start(), &m[512..1024]);
}

// The block of the last number behind as many full blocks (calls 29FFD6), and a block more.
fn most(calls: &[u8; 516]) {
    let mut m = [0u8; 512];
    recording::write_block(65535, &calls[..504], &mut m);
    let all = taken(
        b"block FFFF behind FFFF blocks",
        Progress {
            blocks: 65535,
            calls: 42 * 65535,
        },
        &m,
    );
    taken(b"the same again", all, &m);
}

// How many bytes the calls of a block have, and their first word.
fn called(b: &[u8]) {
    let calls = recording::calls_of(b);
    show::text(b" calls");
    show::numbers(calls.len() as u64, wire::word_at(calls, 0) as u64);
    show::end();
}

// A block taken behind what is carried, and what is carried on: blocks and calls; or the start, where something is
// wrong.
fn taken(label: &[u8], p: Progress, block: &[u8]) -> Progress {
    show::text(label);
    show::text(b":");
    match p.take(block) {
        Ok(q) => {
            show::numbers(q.blocks as u64, q.calls as u64);
            show::end();
            q
        }
        Err(f) => {
            named(f);
            Progress::start()
        }
    }
}

// What is wrong with a block.
fn named(f: Flaw) {
    match f {
        Flaw::TooMany => show::text(b" too many\n"),
        Flaw::Short => show::text(b" short\n"),
        Flaw::BehindLast => show::text(b" behind last\n"),
        Flaw::Check => show::text(b" check\n"),
        Flaw::Number => show::text(b" number\n"),
        Flaw::Count => show::text(b" count\n"),
        Flaw::Record => show::text(b" record\n"),
        Flaw::Unused => show::text(b" unused\n"),
    }
}
