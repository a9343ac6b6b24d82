#![tactic(auto)]
// Lines of text on standard output, for programs that show what a library answers.

// The descriptor of standard output.
const STDOUT_FILENO: i32 = 1;

// A label, a number in hexadecimal, and a line end.
pub fn line(label: &[u8], n: u64) {
    text(label);
    value(n);
}

// A space and a number in hexadecimal.
pub fn number(n: u64) {
    text(b" ");
    io::print_hex(STDOUT_FILENO, n, 1);
}

// A space, a number in hexadecimal, and a line end.
pub fn value(n: u64) {
    number(n);
    end();
}

// A line end.
pub fn end() {
    text(b"\n");
}

// A label, yes or no, and a line end.
pub fn answer(label: &[u8], yes: bool) {
    text(label);
    verdict(yes);
}

// Yes or no after a space, and a line end.
pub fn verdict(yes: bool) {
    let word: &[u8] = if yes { b" yes\n" } else { b" no\n" };
    text(word);
}

// Two numbers in hexadecimal, each after a space.
pub fn numbers(a: u64, b: u64) {
    number(a);
    number(b);
}

// A label and two words in hexadecimal.
pub fn words(label: &[u8], a: u32, b: u32) {
    text(label);
    numbers(u64::from(a), u64::from(b));
}

// A label, three words in hexadecimal, and a line end.
pub fn triple(label: &[u8], a: u32, b: u32, c: u32) {
    words(label, a, b);
    value(u64::from(c));
}

// A label, two words in hexadecimal, yes or no, and a line end.
pub fn question(label: &[u8], a: u32, b: u32, yes: bool) {
    words(label, a, b);
    verdict(yes);
}

// A colon, a number of the paper in decimal, a value in hexadecimal, and a line end.
pub fn said(k: u64, n: u64) {
    text(b": ");
    io::print_decimal(STDOUT_FILENO, k);
    value(n);
}

// A number in decimal.
pub fn decimal(n: u64) {
    io::print_decimal(STDOUT_FILENO, n);
}

// An address in hexadecimal and capitals, with zeros in front up to a width, that of eight digits at most.
pub fn address(n: u32, width: u32) {
    let mut digits = [0u8; 16];
    let len = io::hex(u64::from(n), width.min(8) as usize, &mut digits);
    let capitals = digits.map(|d| d.to_ascii_uppercase());
    text(capitals.get(..len).unwrap_or(&[]));
}

// Bytes as they are.
pub fn text(bytes: &[u8]) {
    io::write_all(STDOUT_FILENO, bytes);
}

// The part of a text that has a number: a bar stands between two parts, and the first is part 0.
pub fn part(bytes: &[u8], number: u32) {
    if let Some(it) = bytes.split(|b| *b == b'|').nth(number as usize) {
        text(it);
    }
}
