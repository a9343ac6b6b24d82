// Why an image is refused, in a sentence: the number, the refused word, what that word is, and what is wrong with it.
ghost use Rattle.std.specs.Prelude.{◌<◌, ◌≤◌};

use crate::files::Name;
use crate::image::Image;
use crate::second::{self, Second};
use audit::ImageError;
use std::fmt;
use std::fmt::{Display, Formatter, Write};
use walk::Table;

// The bytes of the first-level table.
const FIRST_LEVEL: usize = 64;

// An image and why it is refused.
#[derive(Clone, Copy)]
pub struct Refusal<'a> {
    pub image: Image<'a>,
    pub why: ImageError,
}

// A group of words that are to be equal: where it begins, its bytes, and the word of it that says so.
#[derive(Clone, Copy)]
struct Group {
    from: u32,
    bytes: u32,
    word: u32,
}

// The bytes of a word's group in a table of a kind.
fn group_size(t: Table, word: u32) -> u32
    ensures { (0 < result) × (result ≤ 256) }
{
    match (t, word % 4) {
        (Table::Coarse, 1) => 64,
        (Table::Fine, 1) => 256,
        (Table::Fine, 2) => 16,
        _ => 4,
    }
}

// The last address of so many bytes at an address.
fn last(at: u32, bytes: u64) -> u64 {
    u64::from(at).wrapping_add(bytes).wrapping_sub(1)
}

impl Group {
    // The group that has the word at an address of a table of a kind: tables, and so groups, stand at
    // multiples of their size.
    fn of(image: Image, t: Table, at: u32) -> Group {
        let word = image.word_at(at);
        let bytes = group_size(t, word);
        Group {
            from: at - at % bytes,
            bytes,
            word,
        }
    }

    // The address of its first word that is not equal.
    fn other(self, image: Image) -> Option<u32> {
        for k in 0..self.bytes / 4 {
            let at = self.from.wrapping_add(4u32.wrapping_mul(k));
            if image.word_at(at) != self.word {
                return Some(at);
            }
        }
        None
    }
}

// The first megabyte, with its table, in which the word at an address stands and its group is not all equal.
fn broken(image: Image, at: u32) -> Option<(u32, Second)> {
    for i in 0..16 {
        if let Some(table) = Second::named(image.word(i)) {
            if table.offset(at).is_some()
                && Group::of(image, table.kind, at).other(image).is_some()
            {
                return Some((i, table));
            }
        }
    }
    None
}

// What is wrong with the memory of an image.
fn bad_memory<W: Write>(f: &mut Formatter<W>, image: Image) -> fmt::Result {
    let len = image.bytes.len();
    let base = image.base;
    write!(f, "{}: refused 4: ", Name(image.path))?;
    if base % 128 != 0 {
        return writeln!(f, "the base, {base:08X}, is no multiple of 128");
    }
    if len > memory::LONGEST {
        return writeln!(f, "the image has more than {} bytes", memory::LONGEST);
    }
    if len % 4 != 0 {
        return writeln!(f, "the image has {len} bytes, which is no multiple of 4");
    }
    writeln!(
        f,
        "the image, {len} bytes at {base:08X}, ends past FFFFFFFF"
    )
}

// Says that the table of the first-level word at an address, or the first-level table itself, is outside the image.
fn outside<W: Write>(f: &mut Formatter<W>, image: Image, at: u32) -> fmt::Result {
    let len = image.bytes.len();
    let base = image.base;
    write!(f, "{}: refused 17 at {at:08X}: ", Name(image.path))?;
    if len < FIRST_LEVEL {
        let end = last(base, 64);
        write!(
            f,
            "the first-level table, {base:08X} to {end:08X}, is not inside the image, "
        )?;
        return writeln!(f, "which has {len} bytes");
    }
    let word = image.word_at(at);
    write!(
        f,
        "word {} of the first level, {word:08X}, names a ",
        at.wrapping_sub(base) / 4
    )?;
    match Second::named(word) {
        Some(table) => {
            let end = last(table.at, u64::from(table.size()));
            write!(
                f,
                "{} table at {:08X} to {end:08X}, ",
                second::kind_name(table.kind),
                table.at
            )?;
            let image_end = last(base, len as u64);
            writeln!(
                f,
                "which is not inside the image, {base:08X} to {image_end:08X}"
            )
        }
        None => Ok(()),
    }
}

// Says that the group of the word at an address is not all equal.
fn unequal<W: Write>(f: &mut Formatter<W>, image: Image, at: u32) -> fmt::Result {
    write!(f, "{}: refused 18 at {at:08X}: ", Name(image.path))?;
    let Some((megabyte, table)) = broken(image, at) else {
        return Ok(())
    };
    let offset = at.wrapping_sub(table.at);
    let virtual_at = (u64::from(page::MEGABYTE) * u64::from(megabyte)).wrapping_add(table.below(
        offset,
    ));
    let group = Group::of(image, table.kind, at);
    let Group { from, bytes, word } = group;
    let size = match word % 4 {
        1 => "large",
        2 => "small",
        _ => "",
    };
    let other = group.other(image).unwrap_or(from.wrapping_add(bytes));
    write!(
        f,
        "word {} of the {} table ",
        offset / 4,
        second::kind_name(table.kind)
    )?;
    write!(
        f,
        "of megabyte {megabyte} at {:08X}, for virtual {virtual_at:06X}, ",
        table.at
    )?;
    write!(
        f,
        "says a {size} page (value {word:08X}), and its group of {} words, ",
        bytes / 4
    )?;
    let end = last(from, u64::from(bytes));
    write!(f, "{from:08X} to {end:08X}, is not all equal: ")?;
    let found = image.word_at(other);
    writeln!(f, "the word at {other:08X} is {found:08X}")
}

impl Display for Refusal<'_> {
    fn fmt<W: Write>(&self, f: &mut Formatter<W>) -> fmt::Result {
        match self.why {
            ImageError::BadMemory => bad_memory(f, self.image),
            ImageError::Outside(at) => outside(f, self.image, at.0),
            ImageError::Unequal(at) => unequal(f, self.image, at.0),
        }
    }
}
