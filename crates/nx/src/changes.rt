// The words of two images that differ, run by run, with what each maps in the tables of its image. A word
// past an image's end is 0.
ghost use Rattle.std.specs.Prelude.{◌<◌, ◌≤◌};

use crate::image::Image;
use crate::list;
use crate::output::{self, Output};
use crate::second::{self, Second};
use std::fmt::{Formatter, InlineText, Write};
use std::{fmt, io};
use walk::{First, Page, Table};

// The table's head.
const HEAD: &str = "\n\
The words that differ\n\
\x20 offset  words  image   word      megabyte  table   index  virtual          page\n";

// A room with more bytes than these has none for the lines of a run, of which there are at most 34.
const FULL: usize = output::SIZE - 34 * 120;

// The words of the first level.
const FIRST_LEVEL: u32 = 16;

// Two images, each accepted or not.
#[derive(Clone, Copy)]
pub struct Changes<'a> {
    pub new: Image<'a>,
    pub new_good: bool,
    pub signed: Image<'a>,
    pub signed_good: bool,
}

// A run of words of an image: its first word's place and address, its bytes, and its words' value.
#[derive(Clone, Copy)]
struct Run {
    first: u32,
    at: u32,
    bytes: u32,
    word: u32,
}

// How many words an image of a length has, none where it is over the limit.
fn words(len: usize) -> u32
    ensures { result ≤ 32768 }
{
    if len > memory::LONGEST {
        0
    } else {
        (len / 4) as u32
    }
}

// The address of a word of an image at a base.
fn address_of(base: u32, k: u32) -> u32 {
    base.wrapping_add(4u32.wrapping_mul(k))
}

// A page: its kind, its physical address and its access.
fn page_said<W: Write>(f: &mut Formatter<W>, p: Page) -> fmt::Result {
    let kind = list::kind_name(p.kind);
    writeln!(
        f,
        "{kind} {:08X} {}",
        p.frame.0,
        list::access_name(p.access)
    )
}

// What a first-level word maps, in an image at a base.
fn first_said<W: Write>(f: &mut Formatter<W>, base: u32, word: u32) -> fmt::Result {
    match walk::descriptors::decode_first(word) {
        First::Fault => writeln!(f, "nothing"),
        First::Whole(p) => page_said(f, p),
        First::Coarse(t) => writeln!(f, "coarse table at offset {:04X}", t.0.wrapping_sub(base)),
        First::Fine(t) => writeln!(f, "fine table at offset {:04X}", t.0.wrapping_sub(base)),
    }
}

// What a word of a table maps.
fn second_said<W: Write>(f: &mut Formatter<W>, t: Table, word: u32) -> fmt::Result {
    match walk::descriptors::decode_second(t, word) {
        Ok(p) => page_said(f, p),
        Err(_) => writeln!(f, "nothing"),
    }
}

// Where a run stands: its megabyte, the kind of its table, its first word there, and the virtual addresses of
// its words.
fn place<W: Write>(
    f: &mut Formatter<W>,
    megabyte: u32,
    table: &str,
    index: u32,
    start: u64,
    span: u64,
) -> fmt::Result {
    let last = start.wrapping_add(span).wrapping_sub(1);
    write!(
        f,
        "{megabyte:X}         {table:<8}{index:<7}{start:06X} - {last:06X}  "
    )
}

impl Run {
    // The virtual address of a megabyte.
    fn megabyte(i: u32) -> u64 {
        u64::from(page::MEGABYTE) * u64::from(i)
    }

    // Its line in the first level.
    fn in_first<W: Write>(self, f: &mut Formatter<W>, base: u32) -> fmt::Result {
        let Run {
            first,
            bytes,
            word,
            ..
        } = self;
        place(
            f,
            first,
            "first",
            first,
            Run::megabyte(first),
            262144 * u64::from(bytes),
        )?;
        first_said(f, base, word)
    }

    // Its line at an offset of a megabyte's table.
    fn in_second<W: Write>(
        self,
        f: &mut Formatter<W>,
        table: Second,
        megabyte: u32,
        offset: u32,
    ) -> fmt::Result {
        let start = Run::megabyte(megabyte).wrapping_add(table.below(offset));
        let name = second::kind_name(table.kind);
        place(
            f,
            megabyte,
            name,
            offset / 4,
            start,
            table.below(self.bytes),
        )?;
        second_said(f, table.kind, self.word)
    }

    // A line for each of its places in an image's tables.
    fn places<W: Write>(self, f: &mut Formatter<W>, image: Image) -> fmt::Result {
        let mut any = self.first < FIRST_LEVEL;
        if any {
            self.in_first(f, image.base)?;
        }
        for i in 0..FIRST_LEVEL {
            if let Some(table) = Second::named(image.word(i)) {
                if let Some(offset) = table.offset(self.at) {
                    if any {
                        f.write_repeated(" ", 35)?;
                    }
                    self.in_second(f, table, i, offset)?;
                    any = true;
                }
            }
        }
        if any {
            Ok(())
        } else {
            writeln!(f, "in no table")
        }
    }
}

// The lines of a run of an image, which is accepted or not: of one that is not, nothing is said but the word.
fn side<W: Write>(
    f: &mut Formatter<W>,
    image: Image,
    good: bool,
    first: u32,
    bytes: u32,
) -> fmt::Result {
    if 4 * first as usize >= image.bytes.len() {
        return writeln!(f, "-         past its end");
    }
    let word = image.word(first);
    if !good {
        return writeln!(f, "{word:08X}");
    }
    write!(f, "{word:08X}  ")?;
    let at = address_of(image.base, first);
    Run {
        first,
        at,
        bytes,
        word,
    }
    .places(f, image)
}

impl Changes<'_> {
    // How many words the longer image has.
    fn count(&self) -> u32
        ensures { result ≤ 32768 }
    {
        words(self.new.bytes.len().max(self.signed.bytes.len()))
    }

    // Whether a run is cut before a word: where a table may begin, behind the first level, at an image's end.
    fn seam(&self, k: u32) -> bool {
        let at = 4 * k as usize;
        address_of(self.new.base, k) % 1024 == 0
            || k == FIRST_LEVEL
            || at == self.new.bytes.len()
            || at == self.signed.bytes.len()
    }

    // Whether two words are the same in both images.
    fn alike(&self, j: u32, k: u32) -> bool {
        self.new.word(j) == self.new.word(k) && self.signed.word(j) == self.signed.word(k)
    }

    // The word behind the run that begins with a word.
    fn run_end(&self, from: u32, n: u32) -> u32
        requires { from < n }
        ensures { (from < result) × (result ≤ n) }
    {
        for k in from + 1..n {
            if self.seam(k) || !self.alike(from, k) {
                return k;
            }
        }
        n
    }

    // The lines of a run from a word up to another, none where the images agree.
    fn lines<W: Write>(&self, f: &mut Formatter<W>, from: u32, to: u32) -> fmt::Result
        requires { (from ≤ to) × (to ≤ 32768) }
    {
        if self.new.word(from) == self.signed.word(from) {
            return Ok(());
        }
        let n = to - from;
        let offset = InlineText::<8>::of(format_args!("{:04X}", 4 * from));
        write!(f, "  {:<8}{n:<7}signed  ", offset.as_str())?;
        side(f, self.signed, self.signed_good, from, 4 * n)?;
        write!(f, "                 new     ")?;
        side(f, self.new, self.new_good, from, 4 * n)
    }

    // Writes the table of them.
    pub fn print(&self, rt: HostRuntime) -> io::Result<()> {
        let mut out = Output::new(rt);
        out.put(HEAD);
        out.write_past(0);
        let n = self.count();
        let mut k = 0;
        while k < n {
            let end = self.run_end(k, n);
            let _ = self.lines(&mut Formatter::new(&mut out), k, end);
            out.write_past(FULL);
            k = end;
        }
        out.flush()
    }
}
