// The comment of a line, and where a line starts.
ghost use Rattle.std.specs.Prelude.{◌≡◌, ◌≤◌};
ghost use Rattle.listing.specs.Names.{length};
ghost use Rattle.listing.specs.Lines.{body};
ghost use Rattle.listing.specs.Texts.{longest_text};
ghost use Rattle.listing.specs.Purposes.{start_of, solid_to, comment_of};

use crate::{Class, Span, line, tokens};

// Where the line behind k line feeds starts; one past the end where there are fewer.
pub(crate) fn start_of(text: &[u8], k: u32) -> usize
    requires { length text.now ≤ longest_text }
    ensures { result ≡ start_of k text.now }
{
    let mut at = 0;
    for _ in 0..k {
        let r = tokens::run(&text[at..], Class::Inline);
        if at + r >= text.len() {
            return text.len() + 1;
        }
        at += r + 1;
    }
    at
}

// Where the last byte that is no blank ends.
fn solid_to(s: &[u8]) -> usize
    ensures { result ≡ solid_to s.now (length s.now) }
{
    for n in (0..s.len()).rev() {
        if !tokens::blank(s[n]) {
            return n + 1;
        }
    }
    0
}

// The words behind the first '#'.
fn words_of(s: &[u8]) -> Span
    ensures { result ≡ comment_of s.now }
{
    let c = tokens::run(s, Class::Plain);
    if c == s.len() {
        return Span { from: 0, to: 0 };
    }
    let from = c + 1 + tokens::run(&s[c + 1..], Class::Blank);
    let to = solid_to(s);
    if to < from {
        Span { from: 0, to: 0 }
    } else {
        Span { from, to }
    }
}

// The words of a line's comment.
pub(crate) fn comment(line: &[u8]) -> Span
    ensures { result ≡ comment_of (body line.now) }
{
    let n = line::body_length(line);
    words_of(&line[0..n])
}
