#![tactic(auto)]
// Where two images part: what remains of one from the first word that differs, and how many words do.
mod words;

ghost use Rattle.std.specs.Prelude.{◌≡◌, ◌/◌, ◌≤◌};
ghost use Rattle.parting.specs.Names.{drop, length, min};
ghost use Rattle.parting.specs.Parting.{whole_words, owner_at, start_in, part_bytes, part_source, comparison_of};

use words::Common;

// The image that a part is of.
#[derive(Clone, Copy)]
pub enum Owner {
    New,
    Signed,
}

// Whose the part is, where it begins and how many words differ over the common length.
#[derive(Clone, Copy)]
pub struct Parting {
    pub owner: Owner,
    pub start: usize,
    pub words: usize,
}

// Whether two lengths are of whole words: false where refusal 4 holds.
fn whole_words(n: usize, m: usize) -> bool
    ensures { result ≡ whole_words n m }
{
    (n % 4 == 0) & (m % 4 == 0)
}

// How many words images of two lengths have in common.
pub fn common(n: usize, m: usize) -> usize
    ensures { result ≡ min n m / 4 }
{
    n.min(m) / 4
}

// Whose the part is, of two lengths whose images agree over k bytes.
#[tactic(auto, using(crate::proofs::Owners::owners))]
fn owner_at(k: usize, n: usize, m: usize) -> Owner
    ensures { result ≡ owner_at k n m }
{
    if k == n && n < m {
        Owner::Signed
    } else {
        Owner::New
    }
}

// What remains of an image from an offset on.
fn rest<'a>(image: &'a [u8], k: usize) -> &'a [u8]
    requires { k ≤ length image.now }
    ensures bytes { result.now ≡ drop k image.now }
    ensures source { result.ref_ptr ≡ start_in k image.entry }
{
    &image[k..]
}

// What remains of the new image from the first word that differs; of the signed one where the new one is its front.
pub fn part<'a>(new: &'a [u8], signed: &'a [u8]) -> &'a [u8]
    ensures bytes { result.now ≡ part_bytes new.now signed.now }
    ensures source { result.ref_ptr ≡ part_source new.entry signed.entry }
{
    let n = new.len();
    let m = signed.len();
    if !whole_words(n, m) {
        return rest(new, n);
    }
    let words = Common {
        new,
        signed,
        count: common(n, m),
    };
    let k = 4 * words.first_differing();
    match owner_at(k, n, m) {
        Owner::New => rest(new, k),
        Owner::Signed => rest(signed, k),
    }
}

// Whose that part is, where it begins and how many words differ over the common length; nothing under refusal 4.
pub fn compare(new: &[u8], signed: &[u8]) -> Option<Parting>
    ensures { result ≡ comparison_of new.now signed.now }
{
    let n = new.len();
    let m = signed.len();
    if !whole_words(n, m) {
        return None;
    }
    let words = Common {
        new,
        signed,
        count: common(n, m),
    };
    let w = words.first_differing();
    Some(Parting {
        owner: owner_at(4 * w, n, m),
        start: 4 * w,
        words: words.differing(w),
    })
}
