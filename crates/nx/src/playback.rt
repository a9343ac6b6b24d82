// nx replay: the calls of a recording on a fresh unit, what each says, and what they cost.
use crate::columns::{Answered, Source};
use crate::costs::Costs;
use crate::failure::Failure;
use crate::options::Options;
use crate::output::Output;
use crate::recordings::{self, Counted};
use crate::spelling::Spelled;
use crate::{files, image};
use memory::Memories;
use prices::Prices;
use recording::Progress;
use session::Bench;
use std::fmt;
use std::fmt::{Display, Formatter, InlineText, Write};

// The bytes of what a call says.
const ANSWER: usize = 16;

// The bytes of what a full block's calls say.
const ANSWERS: usize = ANSWER * recording::FULL;

// A block's calls from a number on, and what they said.
#[derive(Clone, Copy)]
struct Rows<'a> {
    first: usize,
    calls: &'a [u8],
    said: &'a [u8],
}

// A row for each call: its number, the call, the answer and where the last word of its walk lies. A block's rows
// go out in one write.
impl Display for Rows<'_> {
    fn fmt<W: Write>(&self, f: &mut Formatter<W>) -> fmt::Result {
        let calls = self.calls.chunks_exact(calls::SIZE);
        for (i, (call, said)) in calls.zip(self.said.chunks_exact(ANSWER)).enumerate() {
            let number = self.first.wrapping_add(i);
            let spelled = match calls::decode(call, 0) {
                Some(call) => InlineText::<32>::of(Spelled(call)),
                None => InlineText::new(),
            };
            let said = Answered::of(said);
            writeln!(
                f,
                "  {:<9}{:<31}{}{}",
                number,
                spelled.as_str(),
                said,
                Source(said)
            )?;
        }
        Ok(())
    }
}

// The calls of an accepted recording in order, a row each, and what they cost.
fn session(
    rt: HostRuntime,
    path: &[u8],
    whole: Progress,
    memories: &Memories,
    prices: Prices,
) -> Result<(), Failure> {
    let mut blocks = recordings::reopen(rt, path)?;
    let mut out = Output::new(rt);
    out.put(format_args!("The recording: {}\n", Counted(whole)));
    out.put("  number   call                           unit answers          from\n");
    files::told(rt, out.flush())?;
    let mut room = [0u8; recording::BLOCK];
    let mut said = [0u8; ANSWERS];
    let mut bench = Bench::fresh();
    for _ in 0..whole.blocks {
        let first = blocks.read.calls;
        let calls = recording::calls_of(blocks.again(rt, whole, &mut room)?);
        bench = replay::replay(bench, calls, memories, prices, &mut said);
        out.put(Rows {
            first,
            calls,
            said: &said,
        });
        files::told(rt, out.flush())?;
    }
    blocks.test_end(rt)?;
    out.put(Costs(bench));
    files::told(rt, out.flush())
}

// nx replay RECORDING with the words behind it.
pub(crate) fn run(rt: HostRuntime, path: &[u8]) -> Result<(), Failure> {
    let options = Options::asked(rt)?;
    options.test_inputs(rt)?;
    let whole = recordings::accept(rt, path)?;
    let mut room = [0u8; image::ROOM];
    let mut second = [0u8; image::ROOM];
    let (on, onbase) = options.onchip.read(rt, &mut room)?;
    let (ext, extbase) = options.external.read(rt, &mut second)?;
    let memories = Memories {
        on,
        onbase,
        ext,
        extbase,
    };
    session(rt, path, whole, &memories, options.prices())
}
