// Calls written as blocks.
ghost use Rattle.std.specs.Prelude.{◌≡◌};
ghost use Rattle.recording.specs.Names.{length, min, pasted};
ghost use Rattle.recording.specs.Blocks.{most_calls, block_of};
ghost use Rattle.recording.specs.Writing.{first_bad, blocks_for, recording_of, BlockFits, BlocksFit};

use crate::{BLOCK, CALL_ROOM, CHECK, FULL, HEAD, MOST};

// The calls of the most blocks.
const MOST_CALLS: usize = FULL * MOST;

// The first of n calls that is not as said or past the most, the number of those looked at where none is.
pub(crate) fn bad_call(calls: &[u8], n: usize) -> usize
    ensures { result ≡ first_bad calls.now 0 (min n most_calls) }
{
    let most = n.min(MOST_CALLS);
    for i in 0..most {
        if !calls::is_good(calls::decode(calls, calls::SIZE * i)) {
            return i;
        }
    }
    most
}

// Block number with these calls, at an offset.
pub(crate) fn put_block(t: &[u32], number: usize, calls: &[u8], out: &mut [u8], at: usize)
    requires { BlockFits t.now number (length calls.now) (length out.old) at }
    ensures { out.new ≡ pasted out.old at (block_of number calls.now) }
{
    let n = calls.len();
    wire::put(
        out,
        at,
        &[wire::halves((n / calls::SIZE) as u16, number as u16)],
    );
    wire::put_bytes(out, at + HEAD, calls);
    wire::put_run(out, at + HEAD + n, (CALL_ROOM - n) / 4, 0);
    let check = crc::crc32_by(t, &out[at..at + CHECK]);
    wire::put(out, at + CHECK, &[check]);
}

// Every block.
pub(crate) fn put_blocks(calls: &[u8], out: &mut [u8])
    requires { BlocksFit calls.now (blocks_for calls.now) (length out.old) }
    ensures { out.new ≡ pasted out.old 0 (recording_of calls.now) }
{
    let t = crc::table();
    for (i, part) in calls.chunks(CALL_ROOM).enumerate() {
        put_block(&t, i, part, out, BLOCK * i);
    }
}
