#![tactic(auto)]
// Images that were built elsewhere: checked, and listed as the builder's records.
mod groups;
mod images;
mod pages;

ghost use Rattle.std.specs.Prelude.{◌≡◌};
ghost use Rattle.audit.specs.Names.{megabytes};
ghost use Rattle.audit.specs.Check.{image_ok, check_of};
ghost use Rattle.audit.specs.List.{inventoried, list_of};

use images::Image;
use page::PhysicalAddress;

// Why an image is refused, with the address of the first refused word.
#[derive(Clone, Copy)]
pub enum ImageError {
    BadMemory,
    Outside(PhysicalAddress),
    Unequal(PhysicalAddress),
}

// Why an image is not listed: its check refuses it, or the list is too short for its number of pages.
#[derive(Clone, Copy)]
pub enum ListError {
    Image(ImageError),
    TooShort(usize),
}

impl From<ImageError> for ListError {
    ghost use Rattle.audit.specs.declared.ListError.TheVariants.{Image};

    ghost from_gives = { λ e r. r ≡ Image e };

    fn from(e: ImageError) -> ListError {
        ListError::Image(e)
    }
}

// Whether an image may stand in a memory: false where refusal 4 holds.
fn image_ok(base: PhysicalAddress, len: usize) -> bool
    ensures { result ≡ image_ok base.0 len }
{
    base.0 % 128 == 0 && memory::memory_ok(base, len)
}

// Whether a unit with its base at a memory's start may walk what that holds, and what its slots hold never shows.
pub fn check(memory: &[u8], base: PhysicalAddress) -> Result<usize, ImageError>
    ensures { result ≡ check_of megabytes memory.now base.0 }
{
    if !image_ok(base, memory.len()) {
        return Err(ImageError::BadMemory);
    }
    if memory.len() < 64 {
        return Err(ImageError::Outside(base));
    }
    let image = Image {
        memory,
        base: base.0,
    };
    image.check()
}

// The pages of an image, as the builder's records in a lent list.
pub fn list(memory: &[u8], base: PhysicalAddress, out: &mut [u8]) -> Result<usize, ListError>
    ensures { inventoried result out.new ≡ list_of megabytes memory.now base.0 out.old }
{
    let n = check(memory, base)?;
    if out.len() / records::SIZE < n {
        return Err(ListError::TooShort(n));
    }
    let image = Image {
        memory,
        base: base.0,
    };
    image.list(out);
    Ok(records::SIZE * n)
}
