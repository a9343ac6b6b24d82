// The table of commands: each one's name, how many words it takes, and its function.
use crate::failure::Failure;
use crate::{
    args, build, convert, diff, files, image, map, output, pages, playback, record, show, trial,
};

// The usage.
const USAGE: &str = "\
nx: address tables of the OMAP5910 DSP's memory unit, from a list of mappings as text\n\
\n\
\x20 nx build LIST IMAGE [BASE]  write the tables to IMAGE, to stand at BASE (hex; 20000000)\n\
\x20 nx show LIST                the list in order, its gaps, its tables, shared memory\n\
\x20 nx try LIST SCRIPT          a session on the model, its meters and its bill\n\
\x20 nx map LIST                 a picture of the 16 megabytes, as SVG\n\
\x20 nx records LIST             the list as binary records\n\
\x20 nx text RECORDS             binary records as a list\n\
\x20 nx check IMAGE BASE         accept an image at BASE (hex), or say which word is wrong and why\n\
\x20 nx list IMAGE BASE          the pages of an accepted image, as a list (- and -1: no access)\n\
\x20 nx map IMAGE BASE           a picture of an accepted image, as SVG\n\
\x20 nx diff NEW SIGNED [BASE]   compare two images: the words that differ and what they map\n\
\x20 nx record SCRIPT RECORDING  write the calls of a script to RECORDING\n\
\x20 nx script RECORDING         the calls of a recording as a script\n\
\x20 nx replay RECORDING [..]    the calls of a recording on the model, their meters and their bill\n\
\x20 nx help                     this page\n\
\n\
A list has a line for each mapping: kind, virtual and physical address, access, purpose.\n\
\x20 section 000000 11000000 r   # code      (section, large, small, tiny; r or rw)\n\
\n\
A script has a line for each call; a register by its name or its offset, prices first.\n\
\x20 price external row 2 10.25  # on-chip or external, flat or row, nanoseconds\n\
\x20 write control 7             # or: read fault-status\n\
\x20 request w 412345            # or: acknowledge, prefetch 1FF800, drop, shift 012345\n\
\n\
A replay takes memories and prices as words behind the recording, in any order.\n\
\x20 on-chip FILE BASE           # or: external FILE BASE; not given: empty, at 0\n\
\x20 price external row 2 10.25  # as in a script; not given: 0\n\
\n\
A file named - is standard input, which no recording can be. Pages go to standard output.\n";

// The command that the arguments say, done.
fn done(rt: HostRuntime) -> Result<(), Failure> {
    args::test(rt)?;
    let mut a = io::buffer();
    let mut b = io::buffer();
    let mut c = io::buffer();
    let mut d = io::buffer();
    let command = args::arg(rt, 1, &mut a);
    let first = args::arg(rt, 2, &mut b);
    let second = args::arg(rt, 3, &mut c);
    let third = args::arg(rt, 4, &mut d);
    match (command, args::count(rt).saturating_sub(2)) {
        (b"help", 0) => files::told(rt, output::print(rt, USAGE)),
        (b"build", 2 | 3) => build::run(rt, first, second, third),
        (b"show", 1) => show::run(rt, first),
        (b"try", 2) => trial::run(rt, first, second),
        (b"map", 1 | 2) => map::run(rt, first, second),
        (b"records", 1) => convert::records(rt, first),
        (b"text", 1) => convert::text(rt, first),
        (b"check", 2) => image::run(rt, first, second),
        (b"list", 2) => pages::run(rt, first, second),
        (b"diff", 2 | 3) => diff::run(rt, first, second, third),
        (b"record", 2) => record::run(rt, first, second),
        (b"script", 1) => record::script(rt, first),
        (b"replay", 1..=17) => playback::run(rt, first),
        _ => {
            let _ = rt.eprint(USAGE);
            Err(Failure::Misuse)
        }
    }
}

// The status of the command that the arguments say: 0 where all is fine.
pub(crate) fn run(rt: HostRuntime) -> u64 {
    match done(rt) {
        Ok(()) => 0,
        Err(failure) => failure as u64,
    }
}
