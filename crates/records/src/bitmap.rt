// Which tiny pages are taken: a bit for each of the 16,384, 64 to a word.
ghost use Rattle.std.specs.Prelude.{◌≡◌, ◌+◌, ◌*◌, ◌<◌, ◌≤◌};
ghost use Rattle.records.specs.Names.{length};
ghost use Rattle.records.specs.Bitmap.{Says, Untaken, Free, Full, Covered};

use crate::Mapping;
use page::Kind;

// The words of all the pages.
pub const WORDS: usize = 256;

// Whether sixteen words are zero.
fn sixteen_free(c: &[u64], w: usize) -> bool
    requires { (length c.now ≡ 256) × (w + 16 ≤ 256) }
    ensures { Says (Untaken c.now (64 * w) 1024) result }
{
    c[w..w + 16].iter().all(|word| *word == 0)
}

// Takes all the pages of sixteen words.
fn sixteen_full(c: &mut [u64], w: usize)
    requires { (length c.old ≡ 256) × (w + 16 ≤ 256) }
    ensures { Full c.old (64 * w) 1024 c.new }
{
    c[w..w + 16].fill(u64::MAX);
}

// Whether no page of a mapping is taken.
pub(crate) fn is_free(c: &[u64], m: Mapping) -> bool
    requires { (length c.now ≡ 256) × (m.at.0 < 16777216) }
    ensures { Says (Free c.now m) result }
{
    let p = m.at.0 / 1024;
    let w = (m.at.0 / 65536) as usize;
    match m.kind {
        Kind::Section => sixteen_free(c, w / 16 * 16),
        Kind::Large => c[w] == 0,
        Kind::Small => (c[w] >> (p % 64 / 4 * 4)) % 16 == 0,
        Kind::Tiny => (c[w] >> (p % 64)) % 2 == 0,
    }
}

// Takes the pages of a mapping.
pub(crate) fn cover(c: &mut [u64], m: Mapping)
    requires { (length c.old ≡ 256) × (m.at.0 < 16777216) }
    ensures { Covered c.old m c.new }
{
    let p = m.at.0 / 1024;
    let w = (m.at.0 / 65536) as usize;
    match m.kind {
        Kind::Section => sixteen_full(c, w / 16 * 16),
        Kind::Large => c[w] = u64::MAX,
        Kind::Small => c[w] |= 15 << (p % 64 / 4 * 4),
        Kind::Tiny => c[w] |= 1 << (p % 64),
    }
}
