// nx map: a picture of the 16 megabytes as SVG, a row for each, a box for each mapping, a pixel for each kilobyte.
ghost use Rattle.std.specs.Prelude.{◌<◌, ◌≤◌};

use crate::boxes::Boxes;
use crate::failure::Failure;
use crate::files::{self, XmlName};
use crate::labels::Labels;
use crate::list::{List, Room};
use crate::{build, grid, output, pages};
use std::fmt;
use std::fmt::{Display, Formatter, Write};

// The picture's head: its size.
const HEAD: &str = "\
<svg xmlns=\"http://www.w3.org/2000/svg\" viewBox=\"0 0 1160 1032\" \
font-family=\"system-ui,Helvetica,Arial,sans-serif\" \
font-size=\"11\" fill=\"#1f2937\">\n";

// The styles: a class for each kind, a gap, the hatching, an address, a label inside a box, a line.
const STYLES: &str = "\
<style>rect,path{stroke-width:.75}.k0{fill:#bfdbfe;stroke:#2563eb}.k1{fill:#bbf7d0;stroke:#16a34a}\
.k2{fill:#fed7aa;stroke:#ea580c}.k3{fill:#f5d0fe;stroke:#c026d3}          \
.g{fill:#f3f4f6;stroke:#d1d5db}.h{fill:url(#r)}.a{font-family:monospace;fill:#4b5563}\
.i{paint-order:stroke;stroke:#fff;stroke-width:3}.l{stroke:#9ca3af;fill:none}</style>\n\
\x20         <pattern id=\"r\" width=\"6\" height=\"6\" patternUnits=\"userSpaceOnUse\"\
\x20patternTransform=\"rotate(45)\"><path d=\"M0 0V6\" stroke=\"#6b7280\" style=\"stroke-width:1.6\"/></pattern>\n";

// The style of a page that may not be reached, which no list has.
const NO_ACCESS: &str = "<style>.n{fill:#1f2937;fill-opacity:.6}</style>\n";

// The legend: each entry's class and its words.
const LEGEND: [(&str, &str); 7] = [
    ("k0", "section, 1 MB"),
    ("k1", "large, 64 KB"),
    ("k2", "small, 4 KB"),
    ("k3", "tiny, 1 KB"),
    ("h", "read only"),
    ("g", "not mapped"),
    ("n", "no access"),
];

// The picture of a list, or of an image, whose pages may not be reached and have no purpose.
#[derive(Clone, Copy)]
struct Picture<'p, 'a> {
    path: &'p [u8],
    list: List<'a>,
    is_image: bool,
}

// An entry of the legend by its place: a box of a class and its words.
fn entry<W: Write>(f: &mut Formatter<W>, i: usize) -> fmt::Result {
    let Some((class, words)) = LEGEND.get(i) else {
        return Ok(())
    };
    let x = 118usize.wrapping_mul(i).wrapping_add(96);
    let right = x.wrapping_add(28);
    write!(
        f,
        "<rect class=\"{class}\" x=\"{x}\" y=\"68\" width=\"22\" height=\"14\"/>"
    )?;
    writeln!(f, "<text x=\"{right}\" y=\"79\">{words}</text>")
}

// A mark of the scale above the rows, at a quarter of a row.
fn mark<W: Write>(f: &mut Formatter<W>, i: u32) -> fmt::Result
    requires { i < 4 }
{
    let x = 96 + 256 * i;
    let at = 262144 * i;
    write!(f, "<text class=\"a\" x=\"{x}\" y=\"110\">+{at:05X}</text>")?;
    writeln!(f, "<path class=\"l\" d=\"M{x} 113V124\"/>")
}

// The empty row of a megabyte.
fn row<W: Write>(f: &mut Formatter<W>, at: u32) -> fmt::Result {
    let y = grid::top(at);
    let base = y + 16;
    write!(
        f,
        "<text class=\"a\" x=\"88\" y=\"{base}\" font-size=\"12\" text-anchor=\"end\">{at:06X}</text>"
    )?;
    writeln!(
        f,
        "<rect class=\"g\" x=\"96\" y=\"{y}\" width=\"1024\" height=\"24\"/>"
    )
}

impl Display for Picture<'_, '_> {
    fn fmt<W: Write>(&self, f: &mut Formatter<W>) -> fmt::Result {
        let Picture {
            path,
            list,
            is_image,
        } = *self;
        let word = if is_image { "pages" } else { "mappings" };
        write!(f, "{HEAD}{STYLES}")?;
        writeln!(f, "<rect width=\"1160\" height=\"1032\" fill=\"#fff\"/>")?;
        write!(
            f,
            "<text x=\"96\" y=\"34\" font-size=\"18\" font-weight=\"600\">"
        )?;
        writeln!(f, "{}</text>", XmlName(path))?;
        write!(
            f,
            "<text x=\"96\" y=\"54\" font-size=\"12\">{} {word} ",
            list.count()
        )?;
        writeln!(
            f,
            "in 16 megabytes of virtual addresses; a row is a megabyte</text>"
        )?;
        for i in 0..6 {
            entry(f, i)?;
        }
        if is_image {
            f.write_str(NO_ACCESS)?;
            entry(f, 6)?;
        }
        for i in 0..4 {
            mark(f, i)?;
        }
        for i in 0..page::MEGABYTES {
            row(f, page::MEGABYTE.wrapping_mul(i))?;
        }
        write!(f, "{}", Boxes(list))?;
        if !is_image {
            write!(f, "{}", Labels(list))?;
        }
        f.write_str("</svg>\n")
    }
}

// nx map LIST.
fn from_list(rt: HostRuntime, path: &[u8]) -> Result<(), Failure> {
    let mut room = Room::new();
    let list = room.load(rt, path)?;
    let mut memory = io::large_buffer();
    list.tables(rt, path, build::BASE, &mut memory)?;
    files::told(
        rt,
        output::print(
            rt,
            Picture {
                path,
                list,
                is_image: false,
            },
        ),
    )
}

// nx map IMAGE BASE.
fn from_image(rt: HostRuntime, path: &[u8], word: &[u8]) -> Result<(), Failure> {
    let mut room = [0u8; pages::RECORDS];
    let records = pages::load(rt, path, word, &mut room)?;
    let list = List {
        text: b"",
        records,
        lines: &[],
    };
    files::told(
        rt,
        output::print_lines(
            rt,
            Picture {
                path,
                list,
                is_image: true,
            },
        ),
    )
}

// nx map LIST, or IMAGE BASE.
pub(crate) fn run(rt: HostRuntime, path: &[u8], word: &[u8]) -> Result<(), Failure> {
    if word.is_empty() {
        from_list(rt, path)
    } else {
        from_image(rt, path, word)
    }
}
