// Lines, their words, and the numbers that words say.

// Why a word says no number in hex of 32 bits.
#[derive(Clone, Copy)]
pub enum BadHex {
    NotHex,
    TooLarge,
}

// The most digits of a decimal.
const MOST_DIGITS: usize = 9;

// Whether a byte stands between words.
fn is_blank(b: u8) -> bool {
    matches!(b, b' ' | b'\t')
}

// A word of a line by its place, where the line has so many.
pub(crate) fn word(line: &[u8], place: usize) -> Option<&[u8]> {
    line.split(|b| is_blank(*b))
        .filter(|w| !w.is_empty())
        .nth(place)
}

// A text without blanks at its ends.
pub(crate) fn trimmed(s: &[u8]) -> &[u8] {
    let mut rest = s;
    while let [b' ' | b'\t', behind @ ..] = rest {
        rest = behind;
    }
    while let [before @ .., b' ' | b'\t'] = rest {
        rest = before;
    }
    rest
}

// A line, as a line feed ends it, without a carriage return at its end.
pub(crate) fn without_return(line: &[u8]) -> &[u8] {
    line.strip_suffix(b"\r").unwrap_or(line)
}

// A line up to its comment.
pub(crate) fn code(line: &[u8]) -> &[u8] {
    line.split(|b| *b == b'#').next().unwrap_or(line)
}

// A line's comment, empty where it has none.
pub(crate) fn comment(line: &[u8]) -> &[u8] {
    trimmed(line.splitn(2, |b| *b == b'#').nth(1).unwrap_or(b""))
}

// What a word says as a hex number.
pub(crate) fn hex(word: &[u8]) -> Result<u32, BadHex> {
    let digits = word
        .strip_prefix(b"0x")
        .or(word.strip_prefix(b"0X"))
        .unwrap_or(word);
    if digits.is_empty() || !digits.iter().all(|b| b.is_ascii_hexdigit()) {
        return Err(BadHex::NotHex);
    }
    let text = str::from_utf8(digits).or(Err(BadHex::NotHex))?;
    u32::from_str_radix(text, 16).or(Err(BadHex::TooLarge))
}

// The number that decimal digits write, zero where there are none.
fn whole(digits: &str) -> Option<u64> {
    if digits.is_empty() {
        return Some(0);
    }
    digits.bytes().all(|b| b.is_ascii_digit()).then_some(())?;
    digits.parse().ok()
}

// What a word of at most nine digits, one or two of them behind a point or none, says as a decimal: a whole
// number, divided once.
pub(crate) fn decimal(word: &[u8]) -> Option<f64> {
    let text = str::from_utf8(word).ok()?;
    let (front, places, by) = match text.split_once('.') {
        None => (text, "", 1),
        Some((front, places)) if places.len() == 1 => (front, places, 10),
        Some((front, places)) if places.len() == 2 => (front, places, 100),
        Some(_) => return None,
    };
    if front.is_empty() || front.len().saturating_add(places.len()) > MOST_DIGITS {
        return None;
    }
    let n = whole(front)?.checked_mul(by)?.checked_add(whole(places)?)?;
    Some(std::num::nearest_u64_to_f64(n) / std::num::nearest_u64_to_f64(by))
}
