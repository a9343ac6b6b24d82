// Blocks read: each tested with what is carried from the one before, and their calls.
ghost use Rattle.std.specs.Prelude.{◌≡◌};
ghost use Rattle.recording.specs.Names.{length, pasted, IsTable};
ghost use Rattle.recording.specs.Reading.{all_zero, block_judged, block_taken, heard, blocks_in, call_bytes, Judgeable, Fillable};

use crate::{BLOCK, CHECK, FULL, Flaw, HEAD, MOST, Progress};

// Whether all bytes are zero.
#[tactic(auto, using(crate::proofs::Zeros::zero_listed))]
fn all_zero(s: &[u8]) -> bool
    ensures { result ≡ all_zero s.now }
{
    s.iter().all(|b| *b == 0)
}

// A block of 512 bytes behind what is carried.
fn judge(t: &[u32], p: Progress, block: &[u8]) -> Result<Progress, Flaw>
    requires { Judgeable t.now p block.now }
    ensures { result ≡ block_judged p block.now }
{
    if wire::word_at(block, CHECK) != crc::crc32_by(t, &block[..CHECK]) {
        return Err(Flaw::Check);
    }
    if wire::high_at(block, 0) as usize != p.blocks {
        return Err(Flaw::Number);
    }
    let n = wire::low_at(block, 0) as usize;
    if n == 0 || n > FULL {
        return Err(Flaw::Count);
    }
    let end = HEAD + calls::SIZE * n;
    if !calls::all_good(&block[HEAD..end]) {
        return Err(Flaw::Record);
    }
    if !all_zero(&block[end..CHECK]) {
        return Err(Flaw::Unused);
    }
    Ok(Progress {
        blocks: p.blocks + 1,
        calls: p.calls + n,
    })
}

// One more block, by a table that is laid.
pub(crate) fn take_by(t: &[u32], p: Progress, block: &[u8]) -> Result<Progress, Flaw>
    requires { IsTable t.now }
    ensures { result ≡ block_taken p block.now }
{
    if p.blocks >= MOST {
        return Err(Flaw::TooMany);
    }
    if block.len() != BLOCK {
        return Err(Flaw::Short);
    }
    if p.calls != FULL * p.blocks {
        return Err(Flaw::BehindLast);
    }
    judge(t, p, block)
}

// All blocks, one after another.
pub(crate) fn hear(recording: &[u8]) -> Result<Progress, usize>
    ensures { result ≡ heard recording.now }
{
    let t = crc::table();
    let mut p = Progress::start();
    for block in recording.chunks(BLOCK) {
        let Ok(q) = take_by(&t, p, block) else {
            return Err(p.blocks);
        };
        p = q;
    }
    Ok(p)
}

// The calls of all blocks, at the front of a memory that has room for them.
pub(crate) fn fill(recording: &[u8], out: &mut [u8])
    requires { Fillable recording.now (blocks_in recording.now) (length out.old) }
    ensures { out.new ≡ pasted out.old 0 (call_bytes recording.now) }
{
    let mut at = 0;
    for block in recording.chunks(BLOCK) {
        let part = crate::calls_of(block);
        wire::put_bytes(out, at, part);
        at += part.len();
    }
}
