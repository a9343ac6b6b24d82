// The image of a list, written into a lent memory.
ghost use Rattle.std.specs.Prelude.{◌≡◌, ◌+◌, ◌*◌, ◌/◌, ◌%◌, ◌^◌, ◌<◌, ◌≤◌};
ghost use Rattle.builder.specs.Names.{ℕ, length, get_or, [], mappings, megabytes, image_length, Kinds};
ghost use Rattle.builder.specs.Names.{page_word, word_in, words_in, spliced};
ghost use Rattle.builder.specs.Image.{length_in, written};
ghost use Rattle.builder.specs.Parts.{Turned, Filled};
ghost use Rattle.builder.specs.Places.{Firsts, based, Level};

use crate::places;
use page::{Kind, MEGABYTE, MEGABYTES};
use records::Mapping;
use records::lists::Notes;
use tables::words;
use walk::Table;

// A word a number of times over, into a memory.
fn write_run(out: &mut [u8], at: usize, n: usize, w: u32)
    requires { at + 4 * n ≤ length out.old }
    ensures { out.new ≡ spliced out.old at (λ (_ : ℕ). w) n }
{
    wire::put_run(out, at, n, w);
}

// How many words of a table a mapping takes. (No accepted list has a section there.)
fn words_of(table: Table, m: Mapping) -> usize
    ensures { result ≡ words_in (Some table) (m.at.0 / 2 ^ 20) m }
{
    match table {
        Table::Fine => match m.kind {
            Kind::Section => 1024,
            Kind::Large => 64,
            Kind::Small => 4,
            Kind::Tiny => 1,
        },
        Table::Coarse => match m.kind {
            Kind::Section => 256,
            Kind::Large => 16,
            Kind::Small => 1,
            Kind::Tiny => 0,
        },
    }
}

// The word of a page in its megabyte's table, which begins at an offset, as often as it stands there.
fn write_page(out: &mut [u8], at: usize, table: Table, m: Mapping)
    requires { at + 4 * (word_in (Some table) m + words_in (Some table) (m.at.0 / 2 ^ 20) m) ≤ length out.old }
    ensures { out.new
        ≡ spliced out.old (at + 4 * word_in (Some table) m) (λ (_ : ℕ). page_word (Some m)) (words_in (Some table) (m.at.0 / 2 ^ 20) m) }
{
    let first = words::word_in(Some(table), m) as usize;
    let n = words_of(table, m);
    write_run(out, at + 4 * first, n, words::page_word(m));
}

// A first-level word for a base, from that for a base of 0: zero stays.
fn based(base: u32, w: u32) -> u32
    ensures { result ≡ based base w % 2 ^ 32 }
{
    if w == 0 { 0 } else { base.wrapping_add(w) }
}

// The first-level table with no section in it.
fn write_first(base: u32, firsts: &[u32; 16], out: &mut [u8])
    requires { Level (length out.old) firsts.now }
    ensures { out.new ≡ spliced out.old 0 (λ (k : ℕ). based base (get_or firsts.now k 0)) megabytes }
{
    let mut words = [0; 16];
    for k in 0..16 {
        words[k] = based(base, firsts[k]);
    }
    wire::put(out, 0, &words);
}

// The words of record j's mapping.
fn write_mapping(records: &[u8], firsts: &[u32; 16], out: &mut [u8], j: usize)
    requires { Level (length out.old) firsts.now × (j < length (mappings records.now)) }
    ensures { Firsts (mappings records.now) firsts.now → image_length megabytes (mappings records.now) ≤ length out.old
        → Turned (mappings records.now) j out.old out.new }
{
    let m = records::mapping_at(records, j);
    let mb = m.at.0 / MEGABYTE;
    if MEGABYTES <= mb {
        return;
    }
    let f = firsts[mb as usize] as usize;
    // Kept: the two low bits of a word name its table, as `TableInside` of specs/Places says.
    match f % 4 {
        3 => write_page(out, f - 3, Table::Fine, m),
        1 => write_page(out, f - 1, Table::Coarse, m),
        _ => write_run(out, 4 * mb as usize, 1, words::section_word(m)),
    }
}

// The words of all mappings, from the last to the first, over an image that has none.
fn write_mappings(records: &[u8], firsts: &[u32; 16], out: &mut [u8])
    requires { Level (length out.old) firsts.now }
    ensures { Firsts (mappings records.now) firsts.now → image_length megabytes (mappings records.now) ≤ length out.old
        → Filled (mappings records.now) out.old out.new }
{
    for j in (0..records::count(records)).rev() {
        write_mapping(records, firsts, out, j);
    }
}

// The image of no records.
fn write_none(base: u32, out: &mut [u8]) -> Option<usize>
    ensures { (result ≡ length_in [] (length out.old)) × (out.new ≡ written [] base out.old) }
{
    if out.len() < 64 {
        return None;
    }
    write_run(out, 0, 16, 0);
    Some(64)
}

// The image of a list whose kinds are noted, for a memory lent at a base: its length, where the memory has the room and
// the image is written.
pub(crate) fn write(records: &[u8], seen: &Notes, base: u32, out: &mut [u8]) -> Option<usize>
    ensures { Kinds (mappings records.now) seen.now.0
        → (result ≡ length_in (mappings records.now) (length out.old)) × (out.new ≡ written (mappings records.now) base out.old) }
{
    if records.is_empty() {
        return write_none(base, out);
    }
    let (firsts, end) = places::place(seen);
    let len = end as usize;
    if out.len() < len {
        return None;
    }
    write_run(out, 0, len / 4, 0);
    write_first(base, &firsts, out);
    write_mappings(records, &firsts, out);
    Some(len)
}
