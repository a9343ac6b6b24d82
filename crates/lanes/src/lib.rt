#![tactic(auto)]
// One lane of the slots' words: the flushes, and what is in range.
ghost use Rattle.std.specs.Prelude.{◌≡◌, ◌<◌, ℕ};
ghost use Rattle.lanes.specs.Names.{get_or};
ghost use Rattle.lanes.specs.Lanes.{ram_ok, cams_ok, rams_ok, flushed_all, flushed_entry};

use page::VirtualAddress;

// How many slots there are.
pub const SLOTS: usize = 32;

// A CAM word in range is below this.
pub const CAM_LIMIT: u32 = 262144;

// A lane, each word of which is changed.
fn changed<F: Fn(u32) -> u32>(lane: [u32; SLOTS], change: F) -> [u32; SLOTS]
    requires { F.IsAlwaysCallable change }
    ensures { (i : ℕ) → i < 32 → F.post change (get_or lane i 0) (get_or result i 0) }
{
    let mut out = lane;
    for w in out.iter_mut() {
        *w = change(*w);
    }
    out
}

// The CAM lane after a global flush.
pub fn flush_all(cam: [u32; SLOTS]) -> [u32; SLOTS]
    ensures { result ≡ flushed_all cam }
{
    changed(cam, page::flushed)
}

// The CAM lane after an entry flush at an address.
pub fn flush_entry(cam: [u32; SLOTS], va: VirtualAddress) -> [u32; SLOTS]
    ensures { result ≡ flushed_entry va cam }
{
    changed(cam, |w| page::flushed_at(va, w))
}

// Whether each CAM word lies below a limit.
pub fn cams_ok(cam: &[u32; SLOTS], limit: u32) -> bool
    ensures { result ≡ cams_ok limit cam.now }
{
    cam.iter().copied().fold(true, |ok, w| ok & (w < limit))
}

// Whether a RAM word has only its layout's bits.
fn ram_ok(w: u32) -> bool
    ensures { result ≡ ram_ok w }
{
    w % 256 == 0
}

// Whether each RAM word has only its layout's bits.
pub fn rams_ok(ram: &[u32; SLOTS]) -> bool
    ensures { result ≡ rams_ok ram.now }
{
    ram.iter().copied().fold(true, |ok, w| ok & ram_ok(w))
}
