#![tactic(auto)]
// The C functions: each calls the byte boundary's function of its name, and promises what that one promises.
ghost use Rattle.std.specs.Prelude.{◌≡◌};
ghost use Rattle.capi.specs.Names.{megabytes, lent, prices_of, ran, check_of, crc32};
ghost use Rattle.capi.specs.Boundary.{run_of, from_of, fetch_of, build_ran, list_ran, part_ran, record_ran, recorded_ran};
ghost use Rattle.capi.specs.Numbers.{verdict_word};

// Builds the tables of a list in a memory.
#[unsafe(no_mangle)]
pub extern "C" fn nx_build(records: &[u8], base: u32, memory: &mut [u8]) -> u64
    ensures { ran result memory.new ≡ build_ran records.now base memory.old }
{
    capi::nx_build(records, base, memory)
}

// Checks the image that a memory holds.
#[unsafe(no_mangle)]
pub extern "C" fn nx_check(memory: &[u8], base: u32) -> u64
    ensures { result ≡ verdict_word (check_of megabytes memory.now base) }
{
    capi::nx_check(memory, base)
}

// Lists the pages of the image that a memory holds.
#[unsafe(no_mangle)]
pub extern "C" fn nx_list(memory: &[u8], base: u32, out: &mut [u8]) -> u64
    ensures { ran result out.new ≡ list_ran memory.now base out.old }
{
    capi::nx_list(memory, base, out)
}

// Compares a new image with a signed one.
#[unsafe(no_mangle)]
pub extern "C" fn nx_part(new: &[u8], signed: &[u8], out: &mut [u8]) -> u64
    ensures { ran result out.new ≡ part_ran new.now signed.now out.old }
{
    capi::nx_part(new, signed, out)
}

// Runs calls from a fresh bench.
#[unsafe(no_mangle)]
pub extern "C" fn nx_run<'a>(
    calls: &[u8],
    on: &'a [u8],
    onbase: u32,
    ext: &'a [u8],
    extbase: u32,
    onkind: u32,
    ona: f64,
    onb: f64,
    extkind: u32,
    exta: f64,
    extb: f64,
    out: &mut [u8],
) -> u64
    ensures { ran result out.new
        ≡ run_of (lent on.now onbase ext.now extbase) (prices_of onkind ona onb extkind exta extb) onkind extkind calls.now out.old }
{
    capi::nx_run(
        calls, on, onbase, ext, extbase, onkind, ona, onb, extkind, exta, extb, out,
    )
}

// Runs calls from a handed-in state.
#[unsafe(no_mangle)]
pub extern "C" fn nx_from<'a>(
    state: &[u8],
    total: f64,
    misses: f64,
    calls: &[u8],
    on: &'a [u8],
    onbase: u32,
    ext: &'a [u8],
    extbase: u32,
    onkind: u32,
    ona: f64,
    onb: f64,
    extkind: u32,
    exta: f64,
    extb: f64,
    out: &mut [u8],
) -> u64
    ensures { ran result out.new
        ≡ from_of (lent on.now onbase ext.now extbase) (prices_of onkind ona onb extkind exta extb)
        onkind extkind state.now total misses calls.now out.old }
{
    capi::nx_from(
        state, total, misses, calls, on, onbase, ext, extbase, onkind, ona, onb, extkind, exta,
        extb, out,
    )
}

// The four bytes at an address.
#[unsafe(no_mangle)]
pub extern "C" fn nx_fetch<'a>(
    on: &'a [u8],
    onbase: u32,
    ext: &'a [u8],
    extbase: u32,
    address: u32,
) -> u64
    ensures { result ≡ fetch_of (lent on.now onbase ext.now extbase) address }
{
    capi::nx_fetch(on, onbase, ext, extbase, address)
}

// Writes calls as a recording.
#[unsafe(no_mangle)]
pub extern "C" fn nx_record(calls: &[u8], out: &mut [u8]) -> u64
    ensures { ran result out.new ≡ record_ran calls.now out.old }
{
    capi::nx_record(calls, out)
}

// Reads the calls of a recording.
#[unsafe(no_mangle)]
pub extern "C" fn nx_recorded(recording: &[u8], out: &mut [u8]) -> u64
    ensures { ran result out.new ≡ recorded_ran recording.now out.old }
{
    capi::nx_recorded(recording, out)
}

// The CRC-32 of bytes.
#[unsafe(no_mangle)]
pub extern "C" fn nx_crc(bytes: &[u8]) -> u64
    ensures { result ≡ crc32 bytes.now }
{
    capi::nx_crc(bytes)
}
