#![tactic(auto)]
// CRC-32 of IEEE 802.3, reflected: eight bytes at a time, by a table that is laid once for as many lists as one likes.
mod words;

ghost use Rattle.std.specs.Prelude.{◌≡◌, ◌+◌, ◌/◌, ◌%◌, ◌<◌, ◌≤◌, fold};
ghost use Rattle.crc.specs.Crc.{behind, byte_step, crc_from, crc32, IsTable};

// How many words the table has.
pub const SIZE: usize = 2048;

// The table.
pub fn table() -> [u32; SIZE]
    ensures { IsTable result }
{
    words::WORDS
}

// The word of row j for one byte of x, that whose place is worth d.
fn share(t: &[u32; SIZE], j: usize, x: u32, d: u32) -> u32
    requires { (j < 8) × (0 < d) }
    ensures { IsTable t.now → result ≡ behind j (x / d % 256) }
{
    t[256 * j + (x / d % 256) as usize]
}

// Four bytes behind the bits of row j, by the words of four rows.
fn four(t: &[u32; SIZE], j: usize, x: u32) -> u32
    requires { j ≤ 4 }
    ensures { IsTable t.now → result ≡ behind j x }
{
    share(t, j, x, 1)
        ^ share(t, j + 1, x, 256)
        ^ share(t, j + 2, x, 65536)
        ^ share(t, j + 3, x, 16777216)
}

// The register behind eight bytes more.
fn eight(t: &[u32; SIZE], c: u32, bytes: &[u8; 8]) -> u32
    ensures { IsTable t.now → result ≡ crc_from c bytes.now }
{
    four(t, 0, c ^ wire::word_of(&bytes[..4])) ^ four(t, 4, wire::word_of(&bytes[4..]))
}

// The register behind one byte more.
fn one(t: &[u32; SIZE], c: u32, b: u8) -> u32
    ensures { IsTable t.now → result ≡ byte_step c b }
{
    share(t, 7, c ^ (b as u32), 1) ^ (c / 256)
}

// The check of a list of bytes, by a table that is laid.
pub fn crc32_by(t: &[u32], bytes: &[u8]) -> u32
    ensures { IsTable t.now → result ≡ crc32 bytes.now }
{
    let Some(t) = t.first_chunk() else {
        return 0;
    };
    let (eights, rest) = bytes.as_chunks();
    let mut c = u32::MAX;
    for b in eights {
        c = eight(t, c, b);
    }
    for b in rest {
        c = one(t, c, *b);
    }
    c ^ u32::MAX
}

// The check of a list of bytes.
pub fn crc32(bytes: &[u8]) -> u32
    ensures { result ≡ crc32 bytes.now }
{
    crc32_by(&table(), bytes)
}
