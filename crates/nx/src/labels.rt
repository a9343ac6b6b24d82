// The labels of nx map: what mappings are for, inside their boxes or under their row in two lanes.
ghost use Rattle.std.specs.Prelude.{◌≤◌};

use crate::grid;
use crate::list::{self, List};
use crate::text::Xml;
use records::Mapping;
use std::fmt;
use std::fmt::{Display, Formatter, Write};

// Where the rows end on the right.
const RIGHT: u64 = 1120;

// The most characters of a label.
const LONGEST: usize = 60;

// The labels of a list, run by run in rising order.
#[derive(Clone, Copy)]
pub struct Labels<'a>(pub List<'a>);

// A row, and how far the labels under it reach, in its upper and in its lower lane.
#[derive(Clone, Copy)]
struct Lanes {
    row: u32,
    upper: u64,
    lower: u64,
}

// A label under a row: where its line stands, and from where to where it reaches.
#[derive(Clone, Copy)]
struct Label {
    x: u64,
    from: u64,
    to: u64,
}

// Where a label goes: into its boxes, or into a lane under the row.
#[derive(Clone, Copy)]
enum Spot {
    Inside,
    Upper(Label),
    Lower(Label),
}

// Mappings with the same purpose, one right behind the other in a row.
#[derive(Clone, Copy)]
struct Run<'a> {
    first: Mapping,
    end: u32,
    purpose: &'a [u8],
}

// Where the characters of a text begin.
fn is_start(b: u8) -> bool {
    !(0x80..=0xbf).contains(&b)
}

// How wide a label is.
fn width_of(s: &[u8]) -> u64
    ensures { result ≤ 360 }
{
    let n = s.iter().filter(|b| is_start(**b)).count();
    if n > LONGEST { 360 } else { 6 * n as u64 }
}

// The megabyte of an address.
fn row_of(at: u32) -> u32 {
    at / page::MEGABYTE
}

// The text of a label: as much as its width has room for.
#[derive(Clone, Copy)]
struct Cut<'a>(&'a [u8]);

impl Display for Cut<'_> {
    fn fmt<W: Write>(&self, f: &mut Formatter<W>) -> fmt::Result {
        let s = self.0;
        let mut starts = s.iter().enumerate().filter(|(_, b)| is_start(**b));
        match starts.nth(LONGEST) {
            None => write!(f, "{}</text>\n", Xml(s)),
            Some((n, _)) => write!(f, "{}\u{2026}</text>\n", Xml(s.get(..n).unwrap_or(s))),
        }
    }
}

// The middle of a mapping's box.
fn middle(m: Mapping) -> u64
    ensures { result ≤ 4000 }
{
    grid::left(m.at.0) + grid::wide(m.at.0, list::end(m)) / 2
}

impl Label {
    // A label under its row, to the right of its line or, where there is no room, to its left.
    fn at(x: u64, width: u64) -> Label
        requires x_bound { x ≤ 4000 }
        requires width_bound { width ≤ 360 }
    {
        let reach = width + 4;
        if x + reach <= RIGHT {
            Label {
                x,
                from: x,
                to: x + reach,
            }
        } else {
            Label {
                x,
                from: x.wrapping_sub(reach),
                to: x,
            }
        }
    }

    // The line and the text of a label whose row begins at a height, so far below the row.
    fn write<W: Write>(self, f: &mut Formatter<W>, y: u64, below: u64, s: &[u8]) -> fmt::Result
        requires y_bound { y ≤ 1000 }
        requires below_bound { below ≤ 100 }
    {
        let x = self.x;
        let top = y + 24;
        let base = top + below;
        write!(f, "<path class=\"l\" d=\"M{x}.5 {top}V{base}\"/>")?;
        if self.to == x {
            let left = x.wrapping_sub(3);
            return write!(
                f,
                "<text x=\"{left}\" y=\"{base}\" text-anchor=\"end\">{}",
                Cut(s)
            );
        }
        let right = x.wrapping_add(4);
        write!(f, "<text x=\"{right}\" y=\"{base}\">{}", Cut(s))
    }
}

impl<'a> Run<'a> {
    // The run that begins with a mapping.
    fn of(list: List<'a>, i: usize) -> Run<'a> {
        let first = list.mapping(i);
        let purpose = list.purpose(i);
        let mut end = list::end(first);
        for _ in 0..list.count() {
            let Some(j) = list.next(end) else { break };
            if list.mapping(j).at.0 != end
                || end % page::MEGABYTE == 0
                || list.purpose(j) != purpose
            {
                break;
            }
            end = list::end(list.mapping(j));
        }
        Run {
            first,
            end,
            purpose,
        }
    }

    // Where the line of the next label in the row stands, or the row's end.
    fn next_line(self, list: List) -> u64 {
        match list.next(self.end) {
            Some(j) if row_of(list.mapping(j).at.0) == row_of(self.first.at.0) => {
                middle(list.mapping(j))
            }
            _ => 2000,
        }
    }

    // Where its label goes: under the row the upper lane where it stays clear of the next line, else the
    // lower one; nowhere if none has room.
    fn spot(self, list: List, lanes: Lanes) -> Option<Spot> {
        if self.purpose.is_empty() {
            return None;
        }
        let width = width_of(self.purpose);
        if width + 8 <= grid::wide(self.first.at.0, self.end) {
            return Some(Spot::Inside);
        }
        let label = Label::at(middle(self.first), width);
        if label.to <= self.next_line(list) && lanes.upper <= label.from {
            return Some(Spot::Upper(label));
        }
        (lanes.lower <= label.from).then_some(Spot::Lower(label))
    }

    // Its label.
    fn write<W: Write>(self, f: &mut Formatter<W>, spot: Spot) -> fmt::Result {
        let at = self.first.at.0;
        let y = grid::top(at);
        match spot {
            Spot::Inside => {
                let x = grid::left(at) + grid::wide(at, self.end) / 2;
                let base = y + 16;
                write!(
                    f,
                    "<text class=\"i\" x=\"{x}\" y=\"{base}\" text-anchor=\"middle\">"
                )?;
                write!(f, "{}", Cut(self.purpose))
            }
            Spot::Upper(label) => label.write(f, y, 13, self.purpose),
            Spot::Lower(label) => label.write(f, y, 26, self.purpose),
        }
    }
}

impl Lanes {
    // The lanes under the row of an address.
    fn under(self, at: u32) -> Lanes {
        let row = row_of(at);
        if self.row == row {
            self
        } else {
            Lanes {
                row,
                upper: 0,
                lower: 0,
            }
        }
    }

    // The lanes with a label in its spot.
    fn with(self, spot: Option<Spot>) -> Lanes {
        match spot {
            Some(Spot::Upper(label)) => Lanes {
                upper: label.to,
                ..self
            },
            Some(Spot::Lower(label)) => Lanes {
                lower: label.to,
                ..self
            },
            Some(Spot::Inside) | None => self,
        }
    }
}

impl Display for Labels<'_> {
    fn fmt<W: Write>(&self, f: &mut Formatter<W>) -> fmt::Result {
        let list = self.0;
        let mut lanes = Lanes {
            row: 0,
            upper: 0,
            lower: 0,
        };
        let mut from = 0;
        for _ in 0..list.count() {
            let Some(i) = list.next(from) else { break };
            let run = Run::of(list, i);
            lanes = lanes.under(run.first.at.0);
            let spot = run.spot(list, lanes);
            if let Some(spot) = spot {
                run.write(f, spot)?;
            }
            lanes = lanes.with(spot);
            from = run.end;
        }
        Ok(())
    }
}
