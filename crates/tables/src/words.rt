// Which word stands where in the image of a list.
ghost use Rattle.std.specs.Prelude.{◌≡◌, ◌+◌, ◌^◌};
ghost use Rattle.tables.specs.Words.{section_word, page_word, step_bits, word_in};

use page::{Kind, MEGABYTE};
use records::Mapping;
use walk::Table;

// The word of a section.
pub fn section_word(m: Mapping) -> u32
    ensures { result ≡ section_word (Some m) }
{
    page::page_start(Kind::Section, m.to.0) + 1024 * (m.access % 4) + 2
}

// The word of a large, small or tiny page.
pub fn page_word(m: Mapping) -> u32
    ensures { result ≡ page_word (Some m) }
{
    page::page_start(m.kind, m.to.0) + 16 * (m.access % 4) + page::type_of(m.kind)
}

// How many addresses one word stands for.
fn step(t: Option<Table>) -> u32
    ensures { result ≡ 2 ^ step_bits t }
{
    t.map_or(MEGABYTE, |table| table.span())
}

// The first word of a table that stands for a mapping's region.
pub fn word_in(t: Option<Table>, m: Mapping) -> u32
    ensures { result ≡ word_in t m }
{
    page::page_start(m.kind, m.at.0 % MEGABYTE) / step(t)
}
