// nx record and nx script: between a script and a recording.
ghost use Rattle.std.specs.Prelude.{◌≤◌};

use crate::failure::Failure;
use crate::files::{self, Fresh};
use crate::list;
use crate::output::{self, Output};
use crate::recordings::{self, Counted};
use crate::scripts::{self, Words};
use crate::spelling::Spelled;
use crate::text::Shown;
use calls::Call;
use page::Access;
use recording::Progress;
use std::fmt;
use std::fmt::{Display, Formatter, Write};

// The bytes of a full block's calls.
const CALLS: usize = calls::SIZE * recording::FULL;

// A call as a recording keeps it: the kind and a byte behind it, the address, the value.
fn kept(call: Call) -> [u32; 3] {
    match call {
        Call::Write(offset, value) => [1 + 256 * (offset % 256), 0, u32::from(value)],
        Call::Read(offset) => [2 + 256 * (offset % 256), 0, 0],
        Call::Request(va, Access::Read) => [3, va.0, 0],
        Call::Request(va, Access::Write) => [3 + 256, va.0, 0],
        Call::Drop => [4, 0, 0],
        Call::Shift(va) => [5, va.0, 0],
    }
}

// A block of calls, behind the others of a new file.
fn append(rt: HostRuntime, fresh: &mut Fresh, number: usize, calls: &[u8]) -> Result<(), Failure> {
    let mut block = [0u8; recording::BLOCK];
    recording::write_block(number, calls, &mut block);
    fresh.append(rt, &block)
}

// The calls of a script, written to a new file; how many there are.
fn blocks(rt: HostRuntime, fresh: &mut Fresh, t: &[u8]) -> Result<usize, Failure> {
    let mut calls = [0u8; CALLS];
    let mut n = 0usize;
    for line in t.split(|b| *b == b'\n') {
        if let Some(call) = scripts::call(line) {
            wire::put(&mut calls, calls::SIZE * (n % recording::FULL), &kept(call));
            n = n.wrapping_add(1);
            if n % recording::FULL == 0 {
                append(rt, fresh, (n / recording::FULL).wrapping_sub(1), &calls)?;
            }
        }
    }
    let rest = n % recording::FULL;
    if rest != 0 {
        append(rt, fresh, n / recording::FULL, &calls[..calls::SIZE * rest])?;
    }
    Ok(n)
}

// How many blocks so many calls have.
fn blocks_of(n: usize) -> usize
    ensures { result ≤ 65536 }
{
    n.div_ceil(recording::FULL).min(recording::MOST)
}

// What was recorded: the words that tell nx replay a script's prices, where it has any, stand behind it.
#[derive(Clone, Copy)]
struct Summary<'a> {
    path: &'a [u8],
    calls: usize,
    script: &'a [u8],
}

impl Display for Summary<'_> {
    fn fmt<W: Write>(&self, f: &mut Formatter<W>) -> fmt::Result {
        let calls = self.calls;
        let blocks = blocks_of(calls);
        let counted = Counted(Progress { blocks, calls });
        writeln!(
            f,
            "{}: {}, {} bytes",
            Shown(self.path),
            counted,
            recording::BLOCK * blocks
        )?;
        match scripts::price_lines(self.script) {
            (None, None) => Ok(()),
            (onchip, external) => {
                let first = Words(onchip.unwrap_or(b""));
                let second = Words(external.unwrap_or(b""));
                writeln!(f, "prices are given to nx replay:{first}{second}")
            }
        }
    }
}

// nx record SCRIPT RECORDING.
pub(crate) fn run(rt: HostRuntime, path: &[u8], recording: &[u8]) -> Result<(), Failure> {
    let mut room = [0u8; list::TEXT];
    let script = scripts::load(rt, path, &mut room, scripts::RECORDED)?;
    let mut fresh = Fresh::begin(rt, recording)?;
    let calls = blocks(rt, &mut fresh, script)?;
    fresh.finish(rt)?;
    files::told(
        rt,
        output::print(
            rt,
            Summary {
                path: recording,
                calls,
                script,
            },
        ),
    )
}

// The lines of a block's calls, which go out in one write.
#[derive(Clone, Copy)]
struct Lines<'a>(&'a [u8]);

impl Display for Lines<'_> {
    fn fmt<W: Write>(&self, f: &mut Formatter<W>) -> fmt::Result {
        for call in self.0.chunks_exact(calls::SIZE) {
            match calls::decode(call, 0) {
                Some(call) => writeln!(f, "{}", Spelled(call))?,
                None => writeln!(f)?,
            }
        }
        Ok(())
    }
}

// nx script RECORDING.
pub(crate) fn script(rt: HostRuntime, path: &[u8]) -> Result<(), Failure> {
    let whole = recordings::accept(rt, path)?;
    let mut blocks = recordings::reopen(rt, path)?;
    let mut room = [0u8; recording::BLOCK];
    let mut out = Output::new(rt);
    for _ in 0..whole.blocks {
        let block = blocks.again(rt, whole, &mut room)?;
        out.put(Lines(recording::calls_of(block)));
        files::told(rt, out.flush())?;
    }
    blocks.test_end(rt)
}
