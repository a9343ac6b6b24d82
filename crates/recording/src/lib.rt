#![tactic(auto)]
// Recorded sessions: calls in blocks of 512 bytes, each with its number and its check, written and read back.
mod reader;
mod writer;

ghost use Rattle.std.specs.Prelude.{◌≡◌};
ghost use Rattle.recording.specs.Blocks.{calls_of};
ghost use Rattle.recording.specs.Writing.{wrote, block_written, recording_written};
ghost use Rattle.recording.specs.Reading.{progress, block_taken, recording_read};

// The bytes of a block.
pub const BLOCK: usize = 512;

// The calls of a full block.
pub const FULL: usize = 42;

// The bytes of a full block's calls.
const CALL_ROOM: usize = calls::SIZE * FULL;

// Where a block's calls begin, and where its check lies.
const HEAD: usize = 4;

const CHECK: usize = HEAD + CALL_ROOM;

// The most blocks of a recording.
pub const MOST: usize = 65536;

// What is wrong with a block, the first thing of several.
#[derive(Clone, Copy)]
pub enum Flaw {
    TooMany,
    Short,
    BehindLast,
    Check,
    Number,
    Count,
    Record,
    Unused,
}

// What is carried from block to block: how many blocks and calls there were.
#[derive(Clone, Copy)]
pub struct Progress {
    pub blocks: usize,
    pub calls: usize,
}

// Why no recording is written or read: the index of the first bad call or block, or the bytes that are needed.
#[derive(Clone, Copy)]
pub enum RecordingError {
    Bad(usize),
    TooShort(usize),
}

impl Progress {
    // No block yet.
    pub fn start() -> Progress
        ensures { result ≡ progress 0 0 }
    {
        Progress {
            blocks: 0,
            calls: 0,
        }
    }

    // One more block.
    pub fn take(self, block: &[u8]) -> Result<Progress, Flaw>
        ensures { result ≡ block_taken self block.now }
    {
        reader::take_by(&crc::table(), self, block)
    }
}

// The bytes of a block's calls.
#[tactic(auto, unfolding(crate::specs::Blocks::calls_of))]
pub fn calls_of(block: &[u8]) -> &[u8]
    ensures { result.now ≡ calls_of block.now }
{
    let rest = block.get(HEAD..).unwrap_or(&[]);
    let n = calls::SIZE * wire::low_at(block, 0) as usize;
    &rest[..n.min(rest.len())]
}

// The block of a number with these calls, at the front of a memory; nothing where one of the three is out of bounds.
pub fn write_block(number: usize, calls: &[u8], out: &mut [u8])
    ensures { out.new ≡ block_written number calls.now out.old }
{
    if number < MOST
        && calls.len() <= CALL_ROOM
        && calls.len() % calls::SIZE == 0
        && out.len() >= BLOCK
    {
        writer::put_block(&crc::table(), number, calls, out, 0);
    }
}

// Calls as a recording.
pub fn write(calls: &[u8], out: &mut [u8]) -> Result<usize, RecordingError>
    ensures { wrote result out.new ≡ recording_written calls.now out.old }
{
    let n = calls.len().div_ceil(calls::SIZE);
    let bad = writer::bad_call(calls, n);
    if bad < n {
        return Err(RecordingError::Bad(bad));
    }
    let bytes = BLOCK * calls.len().div_ceil(CALL_ROOM);
    if out.len() < bytes {
        return Err(RecordingError::TooShort(bytes));
    }
    writer::put_blocks(calls, out);
    Ok(bytes)
}

// The calls of a recording.
pub fn read(recording: &[u8], out: &mut [u8]) -> Result<usize, RecordingError>
    ensures { wrote result out.new ≡ recording_read recording.now out.old }
{
    let p = reader::hear(recording).map_err(RecordingError::Bad)?;
    let bytes = calls::SIZE * p.calls;
    if out.len() < bytes {
        return Err(RecordingError::TooShort(bytes));
    }
    reader::fill(recording, out);
    Ok(bytes)
}
