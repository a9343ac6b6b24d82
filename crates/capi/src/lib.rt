#![tactic(auto)]
// The byte boundary: what callers that speak C may call, over numbers and bytes alone.
mod numbers;

ghost use Rattle.std.specs.Prelude.{◌≡◌};
ghost use Rattle.capi.specs.Names.{megabytes, lent, prices_of, ran, check_of, crc32};
ghost use Rattle.capi.specs.Boundary.{run_of, from_of, fetch_of, build_ran, list_ran, part_ran, record_ran, recorded_ran};
ghost use Rattle.capi.specs.Numbers.{verdict_word};

use memory::Memories;
use page::PhysicalAddress;
use run::{Priced, Start};
use session::Bench;

// Builds the tables of a list in a memory.
pub fn nx_build(records: &[u8], base: u32, memory: &mut [u8]) -> u64
    ensures { ran result memory.new ≡ build_ran records.now base memory.old }
{
    numbers::built_number(builder::build(records, PhysicalAddress(base), memory))
}

// Checks the image that a memory holds.
pub fn nx_check(memory: &[u8], base: u32) -> u64
    ensures { result ≡ verdict_word (check_of megabytes memory.now base) }
{
    numbers::verdict_number(audit::check(memory, PhysicalAddress(base)))
}

// Lists the pages of the image that a memory holds.
pub fn nx_list(memory: &[u8], base: u32, out: &mut [u8]) -> u64
    ensures { ran result out.new ≡ list_ran memory.now base out.old }
{
    numbers::inventory_number(audit::list(memory, PhysicalAddress(base), out))
}

// Compares a new image with a signed one.
pub fn nx_part(new: &[u8], signed: &[u8], out: &mut [u8]) -> u64
    ensures { ran result out.new ≡ part_ran new.now signed.now out.old }
{
    if !wire::room(out.len(), 0, 6) {
        return 0;
    }
    let words = numbers::comparison_words(parting::compare(new, signed), new.len());
    wire::put(out, 0, &words);
    24
}

// Runs calls from a fresh bench.
pub fn nx_run<'a>(
    calls: &[u8],
    on: &'a [u8],
    onbase: u32,
    ext: &'a [u8],
    extbase: u32,
    onkind: u32,
    ona: f64,
    onb: f64,
    extkind: u32,
    exta: f64,
    extb: f64,
    out: &mut [u8],
) -> u64
    ensures { ran result out.new
        ≡ run_of (lent on.now onbase ext.now extbase) (prices_of onkind ona onb extkind exta extb) onkind extkind calls.now out.old }
{
    let prices = state::read::prices_of(onkind, ona, onb, extkind, exta, extb);
    let memories = Memories {
        on,
        onbase: PhysicalAddress(onbase),
        ext,
        extbase: PhysicalAddress(extbase),
    };
    let start = Start {
        bench: Bench::fresh(),
        handed: 0,
    };
    let priced = Priced {
        prices,
        onkind,
        extkind,
    };
    run::run_from(start, calls, &memories, priced, out)
}

// Runs calls from a handed-in state.
#[tactic(auto, using(crate::proofs::From::from_refused))]
pub fn nx_from<'a>(
    state: &[u8],
    total: f64,
    misses: f64,
    calls: &[u8],
    on: &'a [u8],
    onbase: u32,
    ext: &'a [u8],
    extbase: u32,
    onkind: u32,
    ona: f64,
    onb: f64,
    extkind: u32,
    exta: f64,
    extb: f64,
    out: &mut [u8],
) -> u64
    ensures { ran result out.new
        ≡ from_of (lent on.now onbase ext.now extbase) (prices_of onkind ona onb extkind exta extb)
        onkind extkind state.now total misses calls.now out.old }
{
    if !state::read::state_ok(state) {
        return 0;
    }
    let prices = state::read::prices_of(onkind, ona, onb, extkind, exta, extb);
    let start = Start {
        bench: state::read::bench_at(state, total, misses),
        handed: state::read::lock_at(state),
    };
    let memories = Memories {
        on,
        onbase: PhysicalAddress(onbase),
        ext,
        extbase: PhysicalAddress(extbase),
    };
    let priced = Priced {
        prices,
        onkind,
        extkind,
    };
    run::run_from(start, calls, &memories, priced, out)
}

// The four bytes at an address.
pub fn nx_fetch<'a>(on: &'a [u8], onbase: u32, ext: &'a [u8], extbase: u32, address: u32) -> u64
    ensures { result ≡ fetch_of (lent on.now onbase ext.now extbase) address }
{
    let memories = Memories {
        on,
        onbase: PhysicalAddress(onbase),
        ext,
        extbase: PhysicalAddress(extbase),
    };
    let at = PhysicalAddress(address);
    let part = memories.fetch(at);
    numbers::place_number(memories.locate(at), wire::word_of(part))
}

// Writes calls as a recording.
pub fn nx_record(calls: &[u8], out: &mut [u8]) -> u64
    ensures { ran result out.new ≡ record_ran calls.now out.old }
{
    numbers::written_number(recording::write(calls, out))
}

// Reads the calls of a recording.
pub fn nx_recorded(recording: &[u8], out: &mut [u8]) -> u64
    ensures { ran result out.new ≡ recorded_ran recording.now out.old }
{
    numbers::written_number(recording::read(recording, out))
}

// The CRC-32 of bytes.
pub fn nx_crc(bytes: &[u8]) -> u64
    ensures { result ≡ crc32 bytes.now }
{
    crc::crc32(bytes) as u64
}
