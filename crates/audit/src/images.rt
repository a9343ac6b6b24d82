// An image: its first-level words and the tables that they name, checked.
ghost use Rattle.std.specs.Prelude.{◌≡◌, ◌+◌, ◌-◌, ◌*◌, ◌<◌, ◌≤◌, ◌^◌};
ghost use Rattle.audit.specs.Names.{true, length, megabytes, index_limit, first_of, word_at};
ghost use Rattle.audit.specs.Check.{table_in, table_checked, first_checked, level_checked};
ghost use Rattle.audit.specs.Pages.{table_pages, first_pages, level_pages};

use crate::ImageError;
use crate::groups::{self, Words};
use page::{MEGABYTES, PhysicalAddress};
use walk::{First, Table};

// An image in a memory at a base, which holds the words of the first level.
#[derive(Clone, Copy)]
pub(crate) struct Image<'a> {
    pub memory: &'a [u8],
    pub base: u32,
    ghost below: { base + length memory.now ≤ 2 ^ 32 },
    ghost first: { 4 * megabytes ≤ length memory.now },
}

// The bytes of a table.
fn table_bytes(table: Table) -> usize
    ensures { result ≡ 4 * index_limit table }
{
    match table {
        Table::Coarse => 1024,
        Table::Fine => 4096,
    }
}

impl<'a> Image<'a> {
    // What first-level word i says.
    pub(crate) fn first(&self, i: u32) -> First
        requires { i < megabytes }
        ensures { result ≡ first_of (word_at self.now.memory.now (4 * i)) }
    {
        walk::descriptors::decode_first(groups::word(self.memory, 4 * i as usize))
    }

    // Whether a table lies wholly in the image's memory.
    fn holds(&self, table: Table, at: PhysicalAddress) -> bool
        ensures { result ≡ table_in self.now.base (length self.now.memory.now) table at.0 }
    {
        self.base <= at.0
            && at.0 as usize + table_bytes(table) <= self.base as usize + self.memory.len()
    }

    // The words of a table that lies in the image.
    pub(crate) fn words(&self, table: Table, at: PhysicalAddress) -> Words<'a>
        requires { table_in self.now.base (length self.now.memory.now) table at.0 ≡ true }
        ensures memory { result.memory ≡ self.now.memory }
        ensures at { result.at ≡ at.0 - self.now.base }
        ensures table { result.table ≡ table }
    {
        Words {
            memory: self.memory,
            at: (at.0 - self.base) as usize,
            table,
        }
    }

    // The table that first-level word i names.
    #[inline(always)]
    fn check_table(&self, i: u32, table: Table, at: PhysicalAddress) -> Result<usize, ImageError>
        requires { i < megabytes }
        ensures { result ≡ table_checked table self.now.memory.now self.now.base i at.0
            (Ok (length (table_pages table self.now.memory.now (at.0 - self.now.base) i 0 (index_limit table)))) }
    {
        if !self.holds(table, at) {
            return Err(ImageError::Outside(PhysicalAddress(self.base + 4 * i)));
        }
        match self.words(table, at).scan() {
            Ok(n) => Ok(n),
            Err(j) => Err(ImageError::Unequal(PhysicalAddress(at.0 + 4 * j as u32))),
        }
    }

    // First-level word i.
    fn check_first(&self, i: u32) -> Result<usize, ImageError>
        requires { i < megabytes }
        ensures { result ≡ first_checked self.now.memory.now self.now.base i (first_of (word_at self.now.memory.now (4 * i)))
            (Ok (length (first_pages self.now.memory.now self.now.base i (first_of (word_at self.now.memory.now (4 * i)))))) }
    {
        match self.first(i) {
            First::Fault => Ok(0),
            First::Whole(_) => Ok(1),
            First::Coarse(at) => self.check_table(i, Table::Coarse, at),
            First::Fine(at) => self.check_table(i, Table::Fine, at),
        }
    }

    // The first-level words, and the tables that they name.
    pub(crate) fn check(&self) -> Result<usize, ImageError>
        ensures { result ≡ level_checked self.now.memory.now self.now.base 0 megabytes
            (Ok (length (level_pages self.now.memory.now self.now.base 0 megabytes))) }
    {
        let mut pages = 0;
        for i in 0..MEGABYTES {
            pages += self.check_first(i)?;
        }
        Ok(pages)
    }
}
