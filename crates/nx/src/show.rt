// nx show: a list in rising order with its gaps, its tables, and the physical memory that mappings share.
use crate::failure::Failure;
use crate::list::{self, List, Room};
use crate::text::Shown;
use crate::{build, files, output};
use records::Mapping;
use std::fmt;
use std::fmt::{Display, Formatter, Write};

// An access as a column has it: a list has no others than the last two.
fn access(bits: u32) -> &'static str {
    match bits % 4 {
        0 | 1 => "-",
        2 => "r",
        _ => "rw",
    }
}

// A mapping's row.
fn row<W: Write>(f: &mut Formatter<W>, m: Mapping, purpose: &[u8]) -> fmt::Result {
    write!(
        f,
        "  {:06X} - {:06X}  {:08X}  ",
        m.at.0,
        list::end(m) - 1,
        m.to.0
    )?;
    writeln!(
        f,
        "{:<7}  {:<8}{}",
        list::kind_name(m.kind),
        access(m.access),
        Shown(purpose)
    )
}

// A gap's row, where there is one from an address up to another.
fn gap<W: Write>(f: &mut Formatter<W>, from: u32, to: u32) -> fmt::Result {
    if from >= to {
        return Ok(());
    }
    let last = to - 1;
    let bytes = to - from;
    writeln!(
        f,
        "  {from:06X} - {last:06X}  -         {bytes} bytes not mapped"
    )
}

// The mappings and the gaps between them, in rising order.
fn rows<W: Write>(f: &mut Formatter<W>, list: List) -> fmt::Result {
    let mut from = 0;
    for _ in 0..list.count() {
        let Some(i) = list.next(from) else { break };
        let m = list.mapping(i);
        gap(f, from, m.at.0)?;
        row(f, m, list.purpose(i))?;
        from = list::end(m);
    }
    gap(f, from, page::LIMIT)
}

// The row of a megabyte's word, where it is not zero.
fn first_level<W: Write>(f: &mut Formatter<W>, megabyte: u32, word: u32) -> fmt::Result {
    if word == 0 {
        return Ok(());
    }
    write!(f, "  {megabyte:X}         {word:08X}  ")?;
    let table = word % 65536 / 1024 * 1024;
    match word % 4 {
        1 => writeln!(f, "coarse table at offset {table:04X}"),
        3 => writeln!(f, "fine table at offset {table:04X}"),
        _ => writeln!(f, "section"),
    }
}

// The physical address behind a mapping.
fn behind(m: Mapping) -> u64 {
    u64::from(m.to.0) + u64::from(list::size(m.kind))
}

// The first physical address that two mappings can share, and the one behind the last.
fn shared(a: Mapping, b: Mapping) -> (u64, u64) {
    (u64::from(a.to.0.max(b.to.0)), behind(a).min(behind(b)))
}

// One of two mappings that share: its address and what it is for.
fn party<W: Write>(f: &mut Formatter<W>, m: Mapping, purpose: &[u8]) -> fmt::Result {
    if purpose.is_empty() {
        return write!(f, "{:06X}", m.at.0);
    }
    write!(f, "{:06X} ({})", m.at.0, Shown(purpose))
}

// What two mappings share, where they do; whether they do.
fn pair<W: Write>(
    f: &mut Formatter<W>,
    list: List,
    i: usize,
    j: usize,
) -> Result<bool, fmt::Error> {
    let a = list.mapping(i);
    let b = list.mapping(j);
    let (from, to) = shared(a, b);
    if from >= to {
        return Ok(false);
    }
    write!(f, "  {from:08X} - {:08X}  ", to - 1)?;
    party(f, a, list.purpose(i))?;
    write!(f, " and ")?;
    party(f, b, list.purpose(j))?;
    writeln!(f)?;
    Ok(true)
}

// The physical memory that mappings share.
fn pairs<W: Write>(f: &mut Formatter<W>, list: List) -> fmt::Result {
    let mut any = false;
    for i in 0..list.count() {
        for j in i + 1..list.count() {
            any |= pair(f, list, i, j)?;
        }
    }
    if any { Ok(()) } else { writeln!(f, "  none") }
}

// The page of a list and its tables.
#[derive(Clone, Copy)]
struct Page<'a> {
    list: List<'a>,
    image: &'a [u8],
}

impl Display for Page<'_> {
    fn fmt<W: Write>(&self, f: &mut Formatter<W>) -> fmt::Result {
        writeln!(f, "The list, {} mappings", self.list.count())?;
        writeln!(
            f,
            "  virtual          physical  page     access  what it is for"
        )?;
        rows(f, self.list)?;
        writeln!(
            f,
            "\nThe tables, {} bytes at {:08X}",
            self.image.len(),
            build::BASE
        )?;
        writeln!(f, "  megabyte  word      what it is")?;
        for i in 0..16 {
            first_level(f, i, wire::word_at(self.image, 4 * i as usize))?;
        }
        writeln!(f, "\nPhysical memory that two mappings share")?;
        pairs(f, self.list)
    }
}

// nx show LIST.
pub(crate) fn run(rt: HostRuntime, path: &[u8]) -> Result<(), Failure> {
    let mut room = Room::new();
    let list = room.load(rt, path)?;
    let mut memory = io::large_buffer();
    let image = list.tables(rt, path, build::BASE, &mut memory)?;
    files::told(rt, output::print(rt, Page { list, image }))
}
