// What the words of the tables say, the physical address that a page gives, and the distance that a shift report gives.
ghost use Rattle.std.specs.Prelude.{◌≡◌};
ghost use Rattle.walk.specs.Descriptors.{section_of, first_of, page_of, second_of, physical_of, distance_of};

use crate::{First, Page, Table, Unfound};
use page::{Kind, PhysicalAddress, VirtualAddress};

// A page's upper bits and an address's lower ones.
pub fn physical(p: Page, va: VirtualAddress) -> PhysicalAddress
    ensures { result ≡ physical_of p va }
{
    page::join(p.kind, p.frame, va)
}

// Physical minus virtual.
pub fn distance(p: PhysicalAddress, v: VirtualAddress) -> i64
    ensures { result ≡ distance_of p v }
{
    p.0 as i64 - v.0 as i64
}

// The page of a section's word.
fn section_of(w: u32) -> Page
    ensures { result ≡ section_of w }
{
    Page {
        kind: Kind::Section,
        frame: PhysicalAddress(page::page_start(Kind::Section, w)),
        access: w / 1024 % 4,
    }
}

// What a first-level word says.
#[tactic(auto, unfolding(crate::specs::Descriptors::first_of, crate::specs::Names::pick, page::specs::Low::upper))]
pub fn decode_first(w: u32) -> First
    ensures { result ≡ first_of w }
{
    match w % 4 {
        0 => First::Fault,
        1 => First::Coarse(PhysicalAddress(w / 1024 * 1024)),
        2 => First::Whole(section_of(w)),
        _ => First::Fine(PhysicalAddress(w / 4096 * 4096)),
    }
}

// The page of a second-level word.
fn page_of(kind: Kind, w: u32) -> Page
    ensures { result ≡ page_of kind w }
{
    Page {
        kind,
        frame: PhysicalAddress(page::page_start(kind, w)),
        access: w / 16 % 4,
    }
}

// What a second-level word says: a coarse table has no tiny page.
#[tactic(auto, unfolding(crate::specs::Descriptors::second_of, crate::specs::Names::pick))]
pub fn decode_second(table: Table, w: u32) -> Result<Page, Unfound>
    ensures { result ≡ second_of table w }
{
    match table {
        Table::Coarse => match w % 4 {
            1 => Ok(page_of(Kind::Large, w)),
            2 => Ok(page_of(Kind::Small, w)),
            _ => Err(Unfound::NoPage),
        },
        Table::Fine => match w % 4 {
            0 => Err(Unfound::NoPage),
            1 => Ok(page_of(Kind::Large, w)),
            2 => Ok(page_of(Kind::Small, w)),
            _ => Ok(page_of(Kind::Tiny, w)),
        },
    }
}
