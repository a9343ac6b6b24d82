// Where the tables of the noted kinds lie.
ghost use Rattle.std.specs.Prelude.{◌≡◌, ◌<◌, ◌≤◌};
ghost use Rattle.builder.specs.Names.{megabytes, table_by, first_by};
ghost use Rattle.builder.specs.Places.{Placed};

use page::{Kind, MEGABYTES};
use records::lists::Notes;
use walk::Table;

// The table of a megabyte, by the notes.
fn table_by(seen: &Notes, mb: u32) -> Option<Table>
    requires { mb < megabytes }
    ensures { result ≡ table_by seen.now.0 mb }
{
    if seen.has(Kind::Tiny, mb) {
        Some(Table::Fine)
    } else if seen.has(Kind::Large, mb) || seen.has(Kind::Small, mb) {
        Some(Table::Coarse)
    } else {
        None
    }
}

// The first-level word of a table that begins at an offset, for a base of 0: zero where there is none.
fn table_word(t: Option<Table>, start: u32) -> u32
    requires { start ≤ 1048576 }
    ensures { result ≡ first_by t start None }
{
    match t {
        Some(Table::Fine) => start + 3,
        Some(Table::Coarse) => start + 1,
        None => 0,
    }
}

// The first-level words of the tables, for a base of 0, and where the last one ends.
pub(crate) fn place(seen: &Notes) -> ([u32; 16], u32)
    ensures { Placed seen.now.0 result.1 result.0 }
{
    let mut firsts = [0; 16];
    let mut end = 4 * MEGABYTES;
    for i in 0..MEGABYTES {
        let t = table_by(seen, i);
        let start = tables::start_after(t, end) as u32;
        firsts[i as usize] = table_word(t, start);
        end = start + tables::table_size(t);
    }
    (firsts, end)
}
