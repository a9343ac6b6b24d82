// nx try: a session on the model from a script, what each call says, and what the session cost.
use crate::columns::{Answered, Meant, Source};
use crate::costs::Costs;
use crate::failure::Failure;
use crate::list::{self, Room};
use crate::output::Output;
use crate::script::Step;
use crate::scripts::{self, Words};
use crate::text::Shown;
use crate::{build, files, parse};
use calls::Call;
use memory::{Memories, Place};
use page::PhysicalAddress;
use session::{Bench, Stepped};
use std::fmt;
use std::fmt::{Display, Formatter, Write};

// The most blanks between two columns.
const BLANKS: usize = 48;

// So many blanks, up to those between two columns.
#[derive(Clone, Copy)]
struct Blanks(usize);

// The line of a call or a price in a column of a width, which has a blank behind each word.
#[derive(Clone, Copy)]
struct Line<'a> {
    line: &'a [u8],
    width: usize,
}

// A line's remark behind so many blanks, and a line end.
#[derive(Clone, Copy)]
struct Remark<'a>(&'a [u8], usize);

// A price's row, which has a remark and nothing else.
#[derive(Clone, Copy)]
struct PriceRow<'a>(Line<'a>);

// A call's row: what the list says of it, what the unit answered, how many words it read and where the last one lies.
#[derive(Clone, Copy)]
struct CallRow<'a> {
    line: Line<'a>,
    meant: Meant<'a>,
    said: Answered,
    read: u32,
    from: Place,
}

// How many bytes a line has when a blank stands behind each of its words.
fn width(line: &[u8]) -> usize {
    let code = parse::code(line);
    (0..5).filter_map(|k| parse::word(code, k)).fold(
        0,
        |n: usize, w| n.saturating_add(w.len()).saturating_add(1),
    )
}

// The width of the column of a script's lines.
fn widest(t: &[u8]) -> usize {
    t.split(|b| *b == b'\n')
        .map(|line| width(parse::without_return(line)))
        .fold(5, |n: usize, w| n.max(w))
}

impl Display for Blanks {
    fn fmt<W: Write>(&self, f: &mut Formatter<W>) -> fmt::Result {
        f.write_repeated(" ", self.0.min(BLANKS))
    }
}

impl Display for Line<'_> {
    fn fmt<W: Write>(&self, f: &mut Formatter<W>) -> fmt::Result {
        let left = self.width.saturating_sub(width(self.line));
        write!(f, " {} {}", Words(self.line), Blanks(left))
    }
}

impl Display for Remark<'_> {
    fn fmt<W: Write>(&self, f: &mut Formatter<W>) -> fmt::Result {
        let comment = parse::comment(self.0);
        if comment.is_empty() {
            return writeln!(f);
        }
        writeln!(f, "{}{}", Blanks(self.1), Shown(comment))
    }
}

impl Display for PriceRow<'_> {
    fn fmt<W: Write>(&self, f: &mut Formatter<W>) -> fmt::Result {
        let line = self.0.line;
        if parse::comment(line).is_empty() {
            return writeln!(f, "  {}", Shown(parse::trimmed(parse::code(line))));
        }
        write!(f, "{}{}", self.0, Remark(line, BLANKS))
    }
}

impl Display for CallRow<'_> {
    fn fmt<W: Write>(&self, f: &mut Formatter<W>) -> fmt::Result {
        let indent = match self.from {
            Place::OnChip(_) | Place::External(_) => 2,
            Place::Nowhere => 14,
        };
        write!(f, "{} {}{}", self.line, self.meant, self.said)?;
        write!(
            f,
            "{:<7}{}{}",
            self.read,
            Source(self.said),
            Remark(self.line.line, indent)
        )
    }
}

// The bench after a call, and what the call said.
fn stepped(bench: Bench, tables: &[u8], call: Call, prices: prices::Prices) -> Stepped {
    let memories = Memories {
        on: &[0; 16],
        onbase: PhysicalAddress(0),
        ext: tables,
        extbase: PhysicalAddress(build::BASE),
    };
    bench.step(Some(call), &memories, prices)
}

// The calls of a script in order, a row each, and what they cost.
fn session<W: Write>(f: &mut Formatter<W>, records: &[u8], tables: &[u8], t: &[u8]) -> fmt::Result {
    let prices = scripts::prices(t);
    let width = widest(t);
    let base = build::BASE;
    writeln!(f, "The session: a fresh unit, the tables at {base:08X}")?;
    write!(f, "  call {}", Blanks(width.saturating_sub(5)))?;
    writeln!(
        f,
        " list says  unit answers          words  from           remark"
    )?;
    let mut bench = Bench::fresh();
    for line in t.split(|b| *b == b'\n') {
        let line = Line {
            line: parse::without_return(line),
            width,
        };
        match scripts::step(line.line) {
            Some(Step::Make(call)) => {
                let Stepped {
                    bench: next,
                    said,
                    from,
                } = stepped(bench, tables, call, prices);
                let read = next.meters.words.wrapping_sub(bench.meters.words);
                let meant = Meant { records, call };
                let said = Answered::made(said, from);
                f.write(CallRow {
                    line,
                    meant,
                    said,
                    read,
                    from,
                })?;
                bench = next;
            }
            Some(Step::Price(_, _)) => f.write(PriceRow(line))?,
            None => {}
        }
    }
    f.write(Costs(bench))
}

// nx try LIST SCRIPT.
pub(crate) fn run(rt: HostRuntime, path: &[u8], script: &[u8]) -> Result<(), Failure> {
    let mut room = Room::new();
    let list = room.load(rt, path)?;
    let mut memory = io::large_buffer();
    list.tables(rt, path, build::BASE, &mut memory)?;
    let mut text = [0u8; list::TEXT];
    let t = scripts::load(rt, script, &mut text, scripts::LAST)?;
    let mut out = Output::new(rt);
    let _ = session(&mut Formatter::new(&mut out), list.records, &memory, t);
    files::told(rt, out.flush())
}
