#![tactic(auto)]
// Addresses, accesses, kinds of page, and the two words of a slot in register layout.
ghost use Rattle.std.specs.Prelude.{◌≡◌, ◌-◌, ◌^◌};
ghost use Rattle.page.specs.Low.{upper, joined};
ghost use Rattle.page.specs.Words.{physical, low_bits, type_of, kind_of, permits, word_valid, word_access, word_matches, word_address, word_dropped};
ghost use Rattle.page.specs.Words.{word_flushed, word_flushed_at, made_words};

// The megabytes of virtual addresses, a first-level word for each.
pub const MEGABYTES: u32 = 16;

// The bytes of a megabyte.
pub const MEGABYTE: u32 = 1048576;

// The first address past the virtual ones.
pub const LIMIT: u32 = 16777216;

// An address of the DSP.
#[derive(Clone, Copy)]
pub struct VirtualAddress(pub u32);

// An address of the memories.
#[derive(Clone, Copy)]
pub struct PhysicalAddress(pub u32);

// What an access does.
#[derive(Clone, Copy, PartialEq, Eq)]
pub enum Access {
    Read,
    Write,
}

// The kinds of page, each with the type bits that say it.
#[derive(Clone, Copy, PartialEq, Eq)]
pub enum Kind {
    Section = 0,
    Large = 1,
    Small = 2,
    Tiny = 3,
}

// A slot's two words.
#[derive(Clone, Copy)]
pub struct Words {
    pub cam: u32,
    pub ram: u32,
}

// The kind that a word's type bits say.
#[tactic(auto, unfolding(crate::specs::Words::kind_of, crate::specs::Pick::pick))]
pub fn kind_of(w: u32) -> Kind
    ensures { result ≡ kind_of w }
{
    match w % 4 {
        0 => Kind::Section,
        1 => Kind::Large,
        2 => Kind::Small,
        _ => Kind::Tiny,
    }
}

// The type bits of a kind.
pub fn type_of(k: Kind) -> u32
    ensures { result ≡ type_of k }
{
    k as u32
}

// How many low bits of an address a page leaves alone.
pub fn low_bits(k: Kind) -> u32
    ensures { result ≡ low_bits k }
{
    match k {
        Kind::Section => 20,
        Kind::Large => 16,
        Kind::Small => 12,
        Kind::Tiny => 10,
    }
}

// An address with the bits below the page size zero.
pub fn page_start(k: Kind, x: u32) -> u32
    ensures { result ≡ upper (low_bits k) x }
{
    let n = low_bits(k);
    x >> n << n
}

// The upper bits of a physical address and the lower ones of a virtual one, cut at the page size.
pub fn join(k: Kind, frame: PhysicalAddress, va: VirtualAddress) -> PhysicalAddress
    ensures { result ≡ physical (joined (low_bits k) frame.0 va.0) }
{
    PhysicalAddress(page_start(k, frame.0) + (va.0 - page_start(k, va.0)))
}

// Whether access bits permit an access.
pub fn permitted(bits: u32, a: Access) -> bool
    ensures { result ≡ permits bits a }
{
    match a {
        Access::Read => 2 <= bits,
        Access::Write => bits == 3,
    }
}

// Bit V of a CAM word.
fn valid(cam: u32) -> bool
    ensures { result ≡ word_valid cam }
{
    cam / 4 % 2 == 1
}

// The access bits of a RAM word.
pub fn access_of(ram: u32) -> u32
    ensures { result ≡ word_access ram }
{
    ram / 256 % 4
}

// How many tiny pages a page covers.
fn reach(k: Kind) -> u32
    ensures { result ≡ 2 ^ (low_bits k - 10) }
{
    match k {
        Kind::Section => 1024,
        Kind::Large => 64,
        Kind::Small => 4,
        Kind::Tiny => 1,
    }
}

// Whether a slot matches an address.
pub fn matches(cam: u32, va: VirtualAddress) -> bool
    ensures { result ≡ word_matches cam va }
{
    let apart = va.0 / 1024 ^ cam / 16;
    valid(cam) & (apart < reach(kind_of(cam)))
}

// The physical address that a matching slot gives.
#[tactic(auto, unfolding(crate::specs::Words::word_address))]
pub fn translated(cam: u32, ram: u32, va: VirtualAddress) -> PhysicalAddress
    ensures { result ≡ word_address cam ram va }
{
    join(kind_of(cam), PhysicalAddress(ram), va)
}

// A CAM word with V clear.
#[tactic(auto, unfolding(crate::specs::Words::word_dropped, crate::specs::Pick::pick))]
fn dropped(cam: u32) -> u32
    ensures { result ≡ word_dropped cam }
{
    if valid(cam) { cam - 4 } else { cam }
}

// A CAM word after a global flush.
#[tactic(auto, unfolding(crate::specs::Words::word_flushed, crate::specs::Pick::pick))]
pub fn flushed(cam: u32) -> u32
    ensures { result ≡ word_flushed cam }
{
    if cam / 8 % 2 == 1 { cam } else { dropped(cam) }
}

// A CAM word after an entry flush at an address.
#[tactic(auto, unfolding(crate::specs::Words::word_flushed_at, crate::specs::Pick::pick))]
pub fn flushed_at(va: VirtualAddress, cam: u32) -> u32
    ensures { result ≡ word_flushed_at va cam }
{
    if matches(cam, va) { dropped(cam) } else { cam }
}

// The words of a page that a walk found.
#[tactic(auto, unfolding(crate::specs::Words::made_cam, crate::specs::Words::made_ram))]
pub fn made(k: Kind, frame: PhysicalAddress, access: u32, va: VirtualAddress) -> Words
    ensures { result ≡ made_words k frame access va }
{
    Words {
        cam: page_start(k, va.0) / 64 + 4 + type_of(k),
        ram: page_start(k, frame.0) + 256 * (access % 4),
    }
}
