// A recording's file, block by block and twice: the first time to accept the whole of it, the second time for
// its calls.
use crate::failure::{self, Failure};
use crate::list::At;
use crate::{files, output};
use recording::{Flaw, Progress};
use std::fmt;
use std::fmt::{Display, Formatter, Write};
use std::fs::File;

// A block, its place, and what is wrong with it.
#[derive(Clone, Copy)]
struct BadBlock<'a> {
    number: usize,
    flaw: Flaw,
    block: &'a [u8],
}

// How many calls and blocks there are.
#[derive(Clone, Copy)]
pub struct Counted(pub Progress);

// The first call that is not as said, or the number of calls.
fn first_bad(calls: &[u8]) -> usize {
    let mut records = calls.chunks_exact(calls::SIZE);
    records
        .position(|r| !calls::all_good(r))
        .unwrap_or(calls::count(calls))
}

impl Display for BadBlock<'_> {
    fn fmt<W: Write>(&self, f: &mut Formatter<W>) -> fmt::Result {
        let block = self.block;
        write!(f, "block {}: ", self.number)?;
        match self.flaw {
            Flaw::TooMany => write!(f, "past the {}th", recording::MOST),
            Flaw::Short => write!(f, "shorter than {} bytes", recording::BLOCK),
            Flaw::BehindLast => f.write_str("follows a block that is not full"),
            Flaw::Check => f.write_str("its check is wrong"),
            Flaw::Number => write!(f, "its number is {}", wire::high_at(block, 0)),
            Flaw::Count => write!(f, "it has {} calls", wire::low_at(block, 0)),
            Flaw::Record => write!(
                f,
                "call {} is not as said",
                first_bad(recording::calls_of(block))
            ),
            Flaw::Unused => f.write_str("a byte behind its calls is not zero"),
        }
    }
}

impl Display for Counted {
    fn fmt<W: Write>(&self, f: &mut Formatter<W>) -> fmt::Result {
        let Progress { blocks, calls } = self.0;
        let s = if calls == 1 { "" } else { "s" };
        let t = if blocks == 1 { "" } else { "s" };
        write!(f, "{calls} call{s}, {blocks} block{t}")
    }
}

// A file that is read block by block: where it goes by, and how far it was read.
#[derive(Drop)]
pub struct Blocks<'a> {
    file: File,
    path: &'a [u8],
    pub read: Progress,
}

impl<'a> Blocks<'a> {
    // A file from its start on.
    fn open(rt: HostRuntime, path: &'a [u8]) -> Result<Blocks<'a>, Failure> {
        let file = files::open(rt, path)?;
        Ok(Blocks {
            file,
            path,
            read: Progress::start(),
        })
    }

    // The bytes of the next block and how far the file was read with it, or its flaw; none at the end.
    fn next<'b>(
        &mut self,
        rt: HostRuntime,
        room: &'b mut [u8],
    ) -> Result<Option<(&'b [u8], Result<Progress, Flaw>)>, Failure> {
        let block = files::read_on(rt, &mut self.file, self.path, room)?;
        if block.is_empty() {
            return Ok(None);
        }
        Ok(Some((block, self.read.take(block))))
    }

    // Says that the file has changed at the next block.
    fn changed(&self, rt: HostRuntime) -> Failure {
        let at = At(self.path, 0);
        let number = self.read.blocks;
        failure::say(
            rt,
            format_args!("{at}block {number}: the file has changed since it was accepted\n"),
        );
        Failure::Wrong
    }

    // How many calls there are behind the next block of an accepted file.
    fn due(&self, whole: Progress) -> usize {
        let left = whole.calls.saturating_sub(self.read.calls);
        if left < recording::FULL {
            whole.calls
        } else {
            self.read.calls.saturating_add(recording::FULL)
        }
    }

    // The next block of an accepted file, with as many calls as it had then.
    pub fn again<'b>(
        &mut self,
        rt: HostRuntime,
        whole: Progress,
        room: &'b mut [u8],
    ) -> Result<&'b [u8], Failure> {
        match self.next(rt, room)? {
            Some((block, Ok(read))) if read.calls == self.due(whole) => {
                self.read = read;
                Ok(block)
            }
            _ => Err(self.changed(rt)),
        }
    }

    // Tests that an accepted file ends here.
    pub fn test_end(&mut self, rt: HostRuntime) -> Result<(), Failure> {
        let mut room = [0u8; recording::BLOCK];
        match self.next(rt, &mut room)? {
            None => Ok(()),
            Some(_) => Err(self.changed(rt)),
        }
    }

    // Says that a recording is refused, and what is wrong with its next block.
    fn refused(&self, rt: HostRuntime, flaw: Flaw, block: &[u8]) -> Failure {
        let _ = files::told(rt, output::print(rt, "refused 16\n"));
        let number = self.read.blocks;
        let bad = BadBlock {
            number,
            flaw,
            block,
        };
        failure::say(rt, format_args!("{}{bad}\n", At(self.path, 0)));
        Failure::Wrong
    }
}

// A recording's file, accepted or refused: how many blocks and calls it has, and the file from its start on.
pub(crate) fn accept(rt: HostRuntime, path: &[u8]) -> Result<Progress, Failure> {
    if files::is_input(path) {
        failure::say(
            rt,
            "nx: a recording is read twice, so it cannot be standard input\n",
        );
        return Err(Failure::Misuse);
    }
    let mut blocks = Blocks::open(rt, path)?;
    let mut room = [0u8; recording::BLOCK];
    for _ in 0..recording::MOST + 1 {
        match blocks.next(rt, &mut room)? {
            None => return Ok(blocks.read),
            Some((_, Ok(read))) => blocks.read = read,
            Some((block, Err(flaw))) => return Err(blocks.refused(rt, flaw, block)),
        }
    }
    Err(blocks.refused(rt, Flaw::TooMany, &room))
}

// An accepted recording's file, to be read again from its start on.
pub(crate) fn reopen(rt: HostRuntime, path: &[u8]) -> Result<Blocks<'_>, Failure> {
    Blocks::open(rt, path)
}
