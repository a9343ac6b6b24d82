// The boxes of nx map: one for each mapping, in the colour of its kind, covered by its access.
use crate::grid;
use crate::list::{self, List};
use crate::text::Xml;
use records::Mapping;
use std::fmt;
use std::fmt::{Display, Formatter, Write};

// The boxes of a list, in rising order.
#[derive(Clone, Copy)]
pub struct Boxes<'a>(pub List<'a>);

// The place and the size of the rectangle over a mapping.
#[derive(Clone, Copy)]
struct Extent(Mapping);

impl Display for Extent {
    fn fmt<W: Write>(&self, f: &mut Formatter<W>) -> fmt::Result {
        let at = self.0.at.0;
        let x = grid::left(at);
        let y = grid::top(at);
        let width = grid::wide(at, list::end(self.0));
        write!(f, "x=\"{x}\" y=\"{y}\" width=\"{width}\" height=\"24\"/>")
    }
}

// An access, for who points at a mapping.
fn access(bits: u32) -> &'static str {
    match bits % 4 {
        0 => "no access",
        1 => "no access (1)",
        2 => "r",
        _ => "rw",
    }
}

// What lies over a mapping: a shade where it may not be reached, the hatching where it may only be read.
fn cover<W: Write>(f: &mut Formatter<W>, m: Mapping) -> fmt::Result {
    match m.access {
        3 => Ok(()),
        2 => write!(f, "<rect class=\"h\" {}", Extent(m)),
        _ => write!(f, "<rect class=\"n\" {}", Extent(m)),
    }
}

impl Display for Boxes<'_> {
    fn fmt<W: Write>(&self, f: &mut Formatter<W>) -> fmt::Result {
        let list = self.0;
        for i in 0..list.count() {
            let m = list.mapping(i);
            let kind = list::kind_name(m.kind);
            let access = access(m.access);
            let purpose = Xml(list.purpose(i));
            write!(f, "<g><title>{:06X} to {:08X}, ", m.at.0, m.to.0)?;
            write!(f, "{kind}, {access} {purpose}</title>")?;
            write!(
                f,
                "<rect class=\"k{}\" {}",
                page::type_of(m.kind),
                Extent(m)
            )?;
            cover(f, m)?;
            writeln!(f, "</g>")?;
        }
        Ok(())
    }
}
