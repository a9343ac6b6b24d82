#![tactic(auto)]
// A list of mappings as text: a line for each mapping, read into the builder's records and printed from them.
ghost use Rattle.std.specs.Prelude.{◌≡◌};
ghost use Rattle.listing.specs.Prints.{printing, print_text};
ghost use Rattle.listing.specs.Purposes.{purpose_of};
ghost use Rattle.listing.specs.Texts.{reading, read_text};

mod bytes;
mod hex;
mod line;
mod notes;
mod printer;
mod text;
mod tokens;

// Why a word says no number in hex of 32 bits.
#[derive(Clone, Copy)]
pub(crate) enum NumberError {
    TooLarge,
    NotHex,
}

// Bytes that stand together: of one line, outside a comment, blanks, of one word.
#[derive(Clone, Copy)]
pub(crate) enum Class {
    Inline,
    Plain,
    Blank,
    Solid,
}

// A part of a text, from a byte up to another.
#[derive(Clone, Copy)]
pub struct Span {
    pub from: usize,
    pub to: usize,
}

// Why a word says no address where one is to stand.
#[derive(Clone, Copy)]
pub(crate) enum AddressError {
    Missing,
    NotHex,
    TooLarge,
    Uneven,
}

impl From<NumberError> for AddressError {
    ghost use Rattle.listing.specs.Lines.{no_number};

    ghost from_gives = { λ e r. r ≡ no_number e };

    fn from(e: NumberError) -> AddressError {
        match e {
            NumberError::TooLarge => AddressError::TooLarge,
            NumberError::NotHex => AddressError::NotHex,
        }
    }
}

// What is wrong with a text.
#[derive(Clone, Copy)]
pub enum Wrong {
    UnknownKind,
    VirtualNotHex,
    VirtualTooLarge,
    VirtualUneven,
    PhysicalNotHex,
    PhysicalTooLarge,
    PhysicalUneven,
    UnknownAccess,
    WordMissing,
    WordTooMany,
    LineTooLong,
    TextTooLong,
    TooManyMappings,
}

// Why a text is not read: a line counted from 1 (0: the whole text) and what is wrong, or memories that are too short.
#[derive(Clone, Copy)]
pub enum ReadError {
    Bad(u32, Wrong),
    NoRoom,
}

// Why a list is not printed: its records are no list of well-formed ones, or the memory is too short.
#[derive(Clone, Copy)]
pub enum PrintError {
    NoList,
    NoRoom,
}

// The most bytes of a text.
const LONGEST: usize = 262144;

// Reads a list: its records into one memory, the number of each one's line into another; how many mappings there are.
pub fn read(text: &[u8], records: &mut [u8], lines: &mut [u32]) -> Result<usize, ReadError>
    ensures { reading result records.new lines.new ≡ read_text text.now records.old lines.old }
{
    if records.len() < records::SIZE * records::MOST || lines.len() < records::MOST {
        return Err(ReadError::NoRoom);
    }
    if text.len() > LONGEST {
        return Err(ReadError::Bad(0, Wrong::TextTooLong));
    }
    text::read_lines(text, records, lines)
}

// The most bytes of a printed line with its end.
pub const WIDEST: usize = 27;

// Prints a list, a line for each record; how many bytes the text has.
pub fn print(records: &[u8], out: &mut [u8]) -> Result<usize, PrintError>
    ensures { printing result out.new ≡ print_text records.now out.old }
{
    if !printer::formed(records) {
        return Err(PrintError::NoList);
    }
    if out.len() / WIDEST < records.len() / records::SIZE {
        return Err(PrintError::NoRoom);
    }
    Ok(printer::put_lines(records, out))
}

// Where in a text the words of a line's comment lie, without blanks on either side; an empty part where there are none.
pub fn purpose(text: &[u8], line: u32) -> Span
    ensures { result ≡ purpose_of text.now line }
{
    if text.len() > LONGEST || line == 0 {
        return Span { from: 0, to: 0 };
    }
    let at = notes::start_of(text, line - 1);
    if at > text.len() {
        return Span { from: 0, to: 0 };
    }
    let n = tokens::run(&text[at..], Class::Inline);
    let s = notes::comment(&text[at..at + n]);
    Span {
        from: at + s.from,
        to: at + s.to,
    }
}
