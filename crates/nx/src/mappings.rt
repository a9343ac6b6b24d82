// The mappings of two accepted images that differ: the pages that only one of them has, in rising order.
use crate::image::Image;
use crate::output::{self, Output};
use crate::{list, pages};
use records::Mapping;
use std::cmp::Ordering;
use std::fmt::{Formatter, Write};
use std::{fmt, io};

// The table's head.
const HEAD: &str = "\n\
The mappings that differ\n\
\x20 image   virtual          physical  page     access\n";

// A room with more bytes than these has none for two lines.
const FULL: usize = output::SIZE - 128;

// Two accepted images.
#[derive(Clone, Copy)]
pub struct Mappings<'a> {
    pub new: Image<'a>,
    pub signed: Image<'a>,
}

// The address of the first of some records, or, where there is none, where the addresses end.
fn start(records: &[u8]) -> u32 {
    if records::count(records) == 0 {
        page::LIMIT
    } else {
        records::mapping_at(records, 0).at.0
    }
}

// The records behind the first.
fn behind(records: &[u8]) -> &[u8] {
    records.get(records::SIZE..).unwrap_or(b"")
}

// Whether two pages that start at one address are the same.
fn same(a: Mapping, b: Mapping) -> bool {
    a.to.0 == b.to.0 && page::type_of(a.kind) == page::type_of(b.kind) && a.access == b.access
}

// The line of a page that an image has.
fn line<W: Write>(f: &mut Formatter<W>, image: &str, m: Mapping) -> fmt::Result {
    let kind = list::kind_name(m.kind);
    let access = list::access_name(m.access);
    write!(
        f,
        "  {image:<6}  {:06X} - {:06X}  ",
        m.at.0,
        list::end(m) - 1
    )?;
    writeln!(f, "{:08X}  {kind:<7}  {access}", m.to.0)
}

// The pages of two lists that differ; whether there are any.
fn rows(out: &mut Output, signed: &[u8], new: &[u8]) -> bool {
    let mut before = signed;
    let mut now = new;
    let mut any = false;
    for _ in 0..records::count(signed).saturating_add(records::count(new)) {
        let a = records::mapping_at(before, 0);
        let b = records::mapping_at(now, 0);
        let order = start(before).cmp(&start(now));
        let differ = order != Ordering::Equal || !same(a, b);
        if differ && order != Ordering::Greater {
            let _ = line(&mut Formatter::new(&mut *out), "signed", a);
        }
        if differ && order != Ordering::Less {
            let _ = line(&mut Formatter::new(&mut *out), "new", b);
        }
        out.write_past(FULL);
        any |= differ;
        before = if order == Ordering::Greater {
            before
        } else {
            behind(before)
        };
        now = if order == Ordering::Less {
            now
        } else {
            behind(now)
        };
    }
    any
}

impl Mappings<'_> {
    // Writes the table of them.
    pub fn print(&self, rt: HostRuntime) -> io::Result<()> {
        let mut room = [0u8; pages::RECORDS];
        let mut other = [0u8; pages::RECORDS];
        let new = pages::listed(self.new, &mut room).unwrap_or(b"");
        let signed = pages::listed(self.signed, &mut other).unwrap_or(b"");
        let mut out = Output::new(rt);
        out.put(HEAD);
        out.write_past(0);
        if !rows(&mut out, signed, new) {
            out.put("  none: the words that differ map the same pages\n");
        }
        out.flush()
    }
}
