// What mkimage writes for a list of records: its image, or a refusal's message.
ghost use Rattle.std.specs.Prelude.{◌≡◌, ◌+◌, ◌≤◌};
ghost use Rattle.mkimage.specs.Names.{length};
ghost use Rattle.mkimage.specs.Output.{decimal, message, shown_in, output_of};
ghost use Rattle.wire.specs.Words.{pasted, shown};

use builder::BuildError;
use page::PhysicalAddress;

// The address at which the image is to stand.
const BASE: u32 = 536870912;

// Bytes, into a memory from an index on; the index behind them.
fn put(out: &mut [u8], at: usize, s: &[u8]) -> usize
    requires { at + length s.now ≤ length out.old }
    ensures { shown result out.new ≡ shown (at + length s.now) (pasted out.old at s.now) }
{
    wire::put_bytes(out, at, s);
    at + s.len()
}

// A number's decimal digits, into a memory from an index on; the index behind them.
fn put_decimal(out: &mut [u8], at: usize, n: u64) -> usize
    requires { at + 20 ≤ length out.old }
    ensures { shown result out.new ≡ shown (at + length (decimal n)) (pasted out.old at (decimal n)) }
{
    let mut text = [0u8; 20];
    let k = io::decimal(n, &mut text);
    put(out, at, &text[..k])
}

// A refusal's message, at the front of a memory; its length.
fn put_message(out: &mut [u8], number: u64, value: u64) -> usize
    requires { 64 ≤ length out.old }
    ensures { shown result out.new ≡ shown_in (message number value) out.old }
{
    let a = put(out, 0, b"refused ");
    let b = put_decimal(out, a, number);
    let c = put(out, b, b" at ");
    let d = put_decimal(out, c, value);
    put(out, d, b"\n")
}

// Builds a list in a memory; how many bytes at its front are then to be written.
pub(crate) fn output(records: &[u8], memory: &mut [u8]) -> usize
    ensures { shown result memory.new ≡ output_of records.now memory.old }
{
    if memory.len() < 64 {
        return 0;
    }
    match builder::build(records, PhysicalAddress(BASE), memory) {
        Ok(n) => n,
        Err(BuildError::BadMemory) => put_message(memory, 4, 0),
        Err(BuildError::BadRecord(i)) => put_message(memory, 10, i as u64),
        Err(BuildError::Overlap(i)) => put_message(memory, 11, i as u64),
        Err(BuildError::TooLong(c)) => put_message(memory, 12, c as u64),
    }
}
