// A text's lines, read one after the other.
ghost use Rattle.std.specs.Prelude.{◌≡◌};
ghost use Rattle.listing.specs.Texts.{Rooms, reading, lines_of, read_lines};

use crate::{Class, ReadError, Wrong, bytes, line, tokens};

// Reads lines into memories that have room for the most mappings.
pub(crate) fn read_lines(
    text: &[u8],
    records: &mut [u8],
    lines: &mut [u32],
) -> Result<usize, ReadError>
    requires { Rooms text.now records.old lines.old }
    ensures { reading result records.new lines.new ≡ read_lines 1 0 (lines_of text.now) records.old lines.old }
{
    let mut at = 0;
    let mut i = 0;
    let mut n = 0;
    // Kept: the new form is no plainer, since at goes on by a line, and the text's end is a line too.
    while at <= text.len() {
        let from = at;
        let to = from + tokens::run(&text[from..], Class::Inline);
        at = to + 1;
        i += 1;
        let m = match line::said(&text[from..to]) {
            Ok(Some(m)) => m,
            Ok(None) => continue,
            Err(w) => return Err(ReadError::Bad(i, w)),
        };
        if n >= records::MOST {
            return Err(ReadError::Bad(i, Wrong::TooManyMappings));
        }
        bytes::put(records, records::SIZE * n, &bytes::record_of(m));
        lines[n] = i;
        n += 1;
    }
    Ok(n)
}
