#![tactic(auto)]
// A call as a record of 12 bytes.
pub mod forms;

ghost use Rattle.std.specs.Prelude.{◌≡◌, ◌+◌, ◌<◌, ◌≤◌, MatchOption};
ghost use Rattle.calls.specs.Names.{true, length, take, drop};
ghost use Rattle.calls.specs.Records.{call_size, call_of, call_at, call_count, is_good, all_good};

use page::{Access, VirtualAddress};

// The bytes of a record.
pub const SIZE: usize = 12;

// A call.
#[derive(Clone, Copy)]
pub enum Call {
    Write(u32, u16),
    Read(u32),
    Request(VirtualAddress, Access),
    Drop,
    Shift(VirtualAddress),
}

// The bytes of the record at an offset, none where they are not all there.
fn record_at(bytes: &[u8], at: usize) -> Option<&[u8; SIZE]>
    ensures { MatchOption result (length bytes.now < at + call_size)
        (λ r. (at + call_size ≤ length bytes.now) × (r.now ≡ take call_size (drop at bytes.now))) }
{
    bytes.get(at..)?.first_chunk()
}

// The call that a record's bytes say, none where they say none.
fn call_of(r: &[u8; SIZE]) -> Option<Call>
    ensures { result ≡ call_of r.now }
{
    forms::call_from(
        r[0],
        r[1],
        r[2],
        r[3],
        wire::word_of(&r[4..8]),
        wire::word_of(&r[8..12]),
    )
}

// The call of the record at an offset, none where its bytes are not all there.
#[tactic(auto, using(crate::proofs::Rest::call_there, crate::proofs::Rest::call_past))]
pub fn decode(bytes: &[u8], at: usize) -> Option<Call>
    ensures { result ≡ call_at bytes.now at }
{
    call_of(record_at(bytes, at)?)
}

// The call of a record's bytes that are known to be a call.
fn known_of(r: &[u8; SIZE]) -> Option<Call>
    ensures { is_good (call_of r.now) ≡ true → result ≡ call_of r.now }
{
    forms::known(
        r[0],
        r[1],
        wire::word_of(&r[4..8]),
        wire::word_of(&r[8..12]),
    )
}

// The call of the record at an offset that is known to be one: tested are its length and its kind alone.
#[tactic(auto, using(crate::proofs::Rest::call_there, crate::proofs::Rest::call_past))]
pub fn decode_known(bytes: &[u8], at: usize) -> Option<Call>
    ensures { is_good (call_at bytes.now at) ≡ true → result ≡ call_at bytes.now at }
{
    known_of(record_at(bytes, at)?)
}

// How many whole records there are.
pub fn count(calls: &[u8]) -> usize
    ensures { result ≡ call_count calls.now }
{
    calls.len() / SIZE
}

// Whether a record is a call.
pub fn is_good(call: Option<Call>) -> bool
    ensures { result ≡ is_good call }
{
    call.is_some()
}

// Whether there are only whole records, and each is a call.
pub fn all_good(calls: &[u8]) -> bool
    ensures { result ≡ all_good calls.now }
{
    let (records, rest) = calls.as_chunks();
    rest.is_empty() && records.iter().all(|r| is_good(call_of(r)))
}
