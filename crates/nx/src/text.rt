// Text of the user's, as pages and errors show it: a question mark stands for each byte of what is no character.
use std::fmt;
use std::fmt::{Display, Formatter, Write};

// Text on a page.
#[derive(Clone, Copy)]
pub struct Shown<'a>(pub &'a [u8]);

// Text in XML.
#[derive(Clone, Copy)]
pub struct Xml<'a>(pub &'a [u8]);

// A character, or a question mark for each byte of one that XML may not hold.
fn plain<W: Write>(f: &mut Formatter<W>, c: char) -> fmt::Result {
    match c {
        '\t' => f.write_char(c),
        '\0'..='\x1f' | '\x7f' => f.write_str("?"),
        '\u{fffe}' | '\u{ffff}' => f.write_str("???"),
        _ => f.write_char(c),
    }
}

// A character, with what XML reserves written by its name.
fn escaped<W: Write>(f: &mut Formatter<W>, c: char) -> fmt::Result {
    match c {
        '&' => f.write_str("&amp;"),
        '<' => f.write_str("&lt;"),
        '>' => f.write_str("&gt;"),
        '"' => f.write_str("&quot;"),
        _ => plain(f, c),
    }
}

impl Display for Shown<'_> {
    fn fmt<W: Write>(&self, f: &mut Formatter<W>) -> fmt::Result {
        for chunk in self.0.utf8_chunks() {
            for c in chunk.valid().chars() {
                plain(f, c)?;
            }
            f.write_repeated("?", chunk.invalid().len())?;
        }
        Ok(())
    }
}

impl Display for Xml<'_> {
    fn fmt<W: Write>(&self, f: &mut Formatter<W>) -> fmt::Result {
        for chunk in self.0.utf8_chunks() {
            for c in chunk.valid().chars() {
                escaped(f, c)?;
            }
            f.write_repeated("?", chunk.invalid().len())?;
        }
        Ok(())
    }
}
