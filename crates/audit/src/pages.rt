// The pages of an image, a record for each.
ghost use Rattle.std.specs.Prelude.{◌≡◌, ◌+◌, ◌*◌, ◌%◌, ◌^◌, ◌<◌, ◌≤◌, ◌∷◌};
ghost use Rattle.audit.specs.Names.{ℕ, [], true, length, word_bits, index_limit, repeats, Large, records_of, record_size, pasted};
ghost use Rattle.audit.specs.Names.{megabytes, first_of, word_at, Table};
ghost use Rattle.audit.specs.Groups.{table_word, taken_at};
ghost use Rattle.audit.specs.Pages.{page_mapping, table_pages, first_pages, level_pages};
ghost use Rattle.audit.specs.Runs.{InRun};
ghost use Rattle.audit.specs.Puts.{Put, Listable, GroupListable, FirstListable, LevelListable};

use crate::groups::{GROUPS, Words};
use crate::images::Image;
use page::{MEGABYTE, MEGABYTES};
use walk::{First, Page, Table};

// The bytes of addresses that a word of a table stands for.
#[inline(always)]
fn span(table: Table) -> u32
    ensures { result ≡ 2 ^ word_bits table }
{
    match table {
        Table::Coarse => 4096,
        Table::Fine => 1024,
    }
}

// A page's record at an offset.
#[inline(always)]
fn put_page(out: &mut [u8], at: usize, va: u32, p: Page)
    requires { at + record_size ≤ length out.old }
    ensures { out.new ≡ pasted out.old at (records_of (page_mapping va p ∷ [])) }
{
    let record = [
        va,
        p.frame.0,
        page::type_of(p.kind) + 256 * (p.access % 256),
    ];
    wire::put(&mut out[at..at + 12], 0, &record);
}

impl<'a> Words<'a> {
    // Word j of a table of megabyte i: its page's record, if it says one.
    #[inline(always)]
    fn list_word(&self, i: u32, j: usize, out: &mut [u8], at: usize) -> usize
        requires { Listable self.now.table self.now.memory.now self.now.at i j 1 at (length out.old) ×
            (0 < taken_at self.now.table self.now.memory.now self.now.at j → j % taken_at self.now.table self.now.memory.now self.now.at j ≡ 0) }
        ensures { Put (table_pages self.now.table self.now.memory.now self.now.at i j 1) at out.old result out.new }
    {
        if let Ok(p) = walk::descriptors::decode_second(self.table, self.word(j)) {
            put_page(out, at, i * MEGABYTE + j as u32 * span(self.table), p);
            at + 12
        } else {
            at
        }
    }

    // Whether n words from word j on are all faults.
    #[inline(always)]
    fn vacant(&self, j: usize, n: usize) -> bool
        requires { j + n ≤ index_limit self.now.table }
        ensures { result ≡ true → InRun j n (λ (k : ℕ). table_word self.now.memory.now self.now.at k % 4 ≡ 0) }
    {
        let mut bits = 0;
        for k in 0..n {
            bits |= self.word(j + k);
        }
        bits % 4 == 0
    }

    // n words from word j on, each of which takes a word at most.
    #[inline(always)]
    fn list_each(&self, i: u32, j: usize, n: usize, out: &mut [u8], from: usize) -> usize
        requires { Listable self.now.table self.now.memory.now self.now.at i j n from (length out.old) ×
            InRun j n (λ (k : ℕ). taken_at self.now.table self.now.memory.now self.now.at k ≤ 1) }
        ensures { Put (table_pages self.now.table self.now.memory.now self.now.at i j n) from out.old result out.new }
    {
        let mut at = from;
        for k in 0..n {
            at = self.list_word(i, j + k, out, at);
        }
        at
    }

    // A group of n words from word j on.
    #[inline(always)]
    fn list_run(&self, i: u32, j: usize, n: usize, out: &mut [u8], from: usize) -> usize
        requires { GroupListable self.now.table self.now.memory.now self.now.at i j n from (length out.old) }
        ensures { Put (table_pages self.now.table self.now.memory.now self.now.at i j n) from out.old result out.new }
    {
        if self.taken(j) == n {
            return self.list_word(i, j, out, from);
        }
        self.list_each(i, j, n, out, from)
    }

    // A large page's group of a fine table from word j on that is none: by the groups of small pages.
    #[inline(always)]
    fn list_smalls(&self, i: u32, j: usize, out: &mut [u8], from: usize) -> usize
        requires { (self.now.table ≡ Table.Fine) × Listable Table.Fine self.now.memory.now self.now.at i j 64 from (length out.old) × (j % 64 ≡ 0) ×
            InRun j 64 (λ (k : ℕ). taken_at Table.Fine self.now.memory.now self.now.at k ≤ 4) }
        ensures { Put (table_pages Table.Fine self.now.memory.now self.now.at i j 64) from out.old result out.new }
    {
        let mut at = from;
        for g in 0..16 {
            at = self.list_run(i, j + 4 * g, 4, out, at);
        }
        at
    }

    // A large page's group from word j on.
    #[inline(always)]
    fn list_group(&self, i: u32, j: usize, out: &mut [u8], from: usize) -> usize
        requires { Listable self.now.table self.now.memory.now self.now.at i j (repeats self.now.table Large) from (length out.old) ×
            (j % repeats self.now.table Large ≡ 0) }
        ensures { Put (table_pages self.now.table self.now.memory.now self.now.at i j (repeats self.now.table Large)) from out.old result out.new }
    {
        let n = self.group();
        if self.taken(j) == n {
            return self.list_word(i, j, out, from);
        }
        if self.vacant(j, n) {
            return from;
        }
        match self.table {
            Table::Coarse => self.list_each(i, j, 16, out, from),
            Table::Fine => self.list_smalls(i, j, out, from),
        }
    }

    // The pages of the table.
    #[inline(always)]
    fn list(&self, i: u32, out: &mut [u8], from: usize) -> usize
        requires { Listable self.now.table self.now.memory.now self.now.at i 0 (index_limit self.now.table) from (length out.old) }
        ensures { Put (table_pages self.now.table self.now.memory.now self.now.at i 0 (index_limit self.now.table)) from out.old result out.new }
    {
        let n = self.group();
        let mut at = from;
        for g in 0..GROUPS {
            at = self.list_group(i, g * n, out, at);
        }
        at
    }
}

impl<'a> Image<'a> {
    // What first-level word i lists.
    fn list_first(&self, i: u32, out: &mut [u8], from: usize) -> usize
        requires { FirstListable self.now.memory.now self.now.base i (first_of (word_at self.now.memory.now (4 * i))) from (length out.old) }
        ensures { Put (first_pages self.now.memory.now self.now.base i (first_of (word_at self.now.memory.now (4 * i)))) from out.old result out.new }
    {
        match self.first(i) {
            First::Fault => from,
            First::Whole(p) => {
                put_page(out, from, i * MEGABYTE, p);
                from + 12
            }
            First::Coarse(at) => self.words(Table::Coarse, at).list(i, out, from),
            First::Fine(at) => self.words(Table::Fine, at).list(i, out, from),
        }
    }

    // The pages of all megabytes, from a list's start on.
    pub(crate) fn list(&self, out: &mut [u8])
        requires { LevelListable self.now.memory.now self.now.base (length out.old) }
        ensures { out.new ≡ pasted out.old 0 (records_of (level_pages self.now.memory.now self.now.base 0 megabytes)) }
    {
        let mut at = 0;
        for i in 0..MEGABYTES {
            at = self.list_first(i, out, at);
        }
    }
}
