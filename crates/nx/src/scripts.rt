// A script: read from its file, its first error said, its calls and its prices.
use crate::failure::{self, Failure};
use crate::list::{self, At};
use crate::script::{self, Memory, Step, Wrong};
use crate::text::Shown;
use crate::{files, parse};
use calls::Call;
use prices::{Price, Prices};
use std::fmt;
use std::fmt::{Display, Formatter, Write};

// The last register offset of all, and the last that a recording has room for.
pub const LAST: u32 = 0xffffffff;

pub const RECORDED: u32 = 0xff;

// The words of a line up to its comment, with a blank before each.
#[derive(Clone, Copy)]
pub struct Words<'a>(pub &'a [u8]);

impl Display for Words<'_> {
    fn fmt<W: Write>(&self, f: &mut Formatter<W>) -> fmt::Result {
        for k in 0..5 {
            if let Some(w) = parse::word(parse::code(self.0), k) {
                write!(f, " {}", Shown(w))?;
            }
        }
        Ok(())
    }
}

// What a line says behind a call or before the first, with register offsets up to a last one.
fn tested(line: &[u8], called: bool, last: u32) -> Result<Option<Step>, Wrong> {
    match script::said(line)? {
        Some(Step::Price(_, _)) if called => Err(Wrong::Late),
        Some(Step::Make(Call::Write(offset, _) | Call::Read(offset))) if offset > last => {
            Err(Wrong::NoRoom)
        }
        step => Ok(step),
    }
}

// Tests a script's lines, with register offsets up to a last one; its first error is said.
fn test(rt: HostRuntime, path: &[u8], t: &[u8], last: u32) -> Result<(), Failure> {
    let mut called = false;
    let mut number = 0u64;
    for line in t.split(|b| *b == b'\n') {
        number = number.wrapping_add(1);
        match tested(parse::without_return(line), called, last) {
            Ok(Some(Step::Make(_))) => called = true,
            Ok(_) => {}
            Err(wrong) => {
                failure::say(rt, format_args!("{}{wrong}\n", At(path, number)));
                return Err(Failure::Wrong);
            }
        }
    }
    Ok(())
}

// A script's bytes, read from its file, with register offsets up to a last one; its first error is said.
pub(crate) fn load<'a>(
    rt: HostRuntime,
    path: &[u8],
    room: &'a mut [u8],
    last: u32,
) -> Result<&'a [u8], Failure> {
    let t = files::read(rt, path, room)?;
    if t.len() >= list::TEXT {
        let at = At(path, 0);
        failure::say(
            rt,
            format_args!("{at}the text is longer than 262144 bytes\n"),
        );
        return Err(Failure::Wrong);
    }
    test(rt, path, t, last)?;
    Ok(t)
}

// What a line of a good script says.
pub(crate) fn step(line: &[u8]) -> Option<Step> {
    script::said(parse::without_return(line)).unwrap_or(None)
}

// The call of a line.
pub(crate) fn call(line: &[u8]) -> Option<Call> {
    match step(line) {
        Some(Step::Make(call)) => Some(call),
        _ => None,
    }
}

// The prices of a script, nothing where it gives none.
pub(crate) fn prices(t: &[u8]) -> Prices {
    let mut prices = Prices {
        onchip: Price::Flat(0.0),
        external: Price::Flat(0.0),
    };
    for line in t.split(|b| *b == b'\n') {
        match step(line) {
            Some(Step::Price(Memory::OnChip, price)) => prices.onchip = price,
            Some(Step::Price(Memory::External, price)) => prices.external = price,
            _ => {}
        }
    }
    prices
}

// The lines that give the last price of each memory, the on-chip one first.
pub(crate) fn price_lines(t: &[u8]) -> (Option<&[u8]>, Option<&[u8]>) {
    let mut onchip = None;
    let mut external = None;
    for line in t.split(|b| *b == b'\n') {
        match step(line) {
            Some(Step::Price(Memory::OnChip, _)) => onchip = Some(parse::without_return(line)),
            Some(Step::Price(Memory::External, _)) => external = Some(parse::without_return(line)),
            _ => {}
        }
    }
    (onchip, external)
}
