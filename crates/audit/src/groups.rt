// The words of a table: how many pages they say, or the first whose group is not all equal.
ghost use Rattle.std.specs.Prelude.{◌≡◌, ◌+◌, ◌*◌, ◌/◌, ◌%◌, ◌<◌, ◌≤◌};
ghost use Rattle.audit.specs.Names.{length, word_at, index_limit, second_of, repeats, Large, Table};
ghost use Rattle.audit.specs.Groups.{table_word, taken, taken_at, all_are};
ghost use Rattle.audit.specs.Runs.{Scanned, Tallied, BrokenOver, Grouped};

use walk::Table;

// How many groups a table has, each of as many words as a large page takes.
pub(crate) const GROUPS: usize = 16;

// The words of a table that lies in a memory. What is made of them is compiled for each kind of table, with its numbers
// as constants: so the looks at a whole group stay without branches.
#[derive(Clone, Copy)]
pub(crate) struct Words<'a> {
    pub memory: &'a [u8],
    pub at: usize,
    pub table: Table,
    ghost inside: { at + 4 * index_limit table ≤ length memory.now },
}

// The word at an offset that has one.
#[inline(always)]
pub(crate) fn word(memory: &[u8], at: usize) -> u32
    requires { at + 4 ≤ length memory.now }
    ensures { result ≡ word_at memory.now at }
{
    wire::word_of(&memory[at..at + 4])
}

// How many words the page takes that a word says; none where it says no page.
#[inline(always)]
fn taken(table: Table, w: u32) -> usize
    ensures { result ≡ taken table (second_of table w) }
{
    match table {
        Table::Coarse => match w % 4 {
            1 => 16,
            2 => 1,
            _ => 0,
        },
        Table::Fine => match w % 4 {
            0 => 0,
            1 => 64,
            2 => 4,
            _ => 1,
        },
    }
}

impl<'a> Words<'a> {
    // How many words a large page takes.
    #[inline(always)]
    pub(crate) fn group(&self) -> usize
        ensures { result ≡ repeats self.now.table Large }
    {
        match self.table {
            Table::Coarse => 16,
            Table::Fine => 64,
        }
    }

    // Word j.
    #[inline(always)]
    pub(crate) fn word(&self, j: usize) -> u32
        requires { j < index_limit self.now.table }
        ensures { result ≡ table_word self.now.memory.now self.now.at j }
    {
        word(self.memory, self.at + 4 * j)
    }

    // How many words the page takes that word j says; none where it says no page.
    #[inline(always)]
    pub(crate) fn taken(&self, j: usize) -> usize
        requires { j < index_limit self.now.table }
        ensures { result ≡ taken_at self.now.table self.now.memory.now self.now.at j }
    {
        taken(self.table, self.word(j))
    }

    // Whether n words from word j on are all as word j.
    #[inline(always)]
    fn all_are(&self, j: usize, n: usize) -> bool
        requires { (0 < n) × (j + n ≤ index_limit self.now.table) }
        ensures { result ≡ all_are self.now.memory.now self.now.at (table_word self.now.memory.now self.now.at j) j n }
    {
        let w = self.word(j);
        let mut same = true;
        for k in 0..n {
            same &= self.word(j + k) == w;
        }
        same
    }

    // How many pages n words of a coarse table from word j on say, if none of them may take more than a word: bit 0 says
    // that one may, bit 1 that it is a page.
    #[inline(always)]
    fn tally_coarse(&self, j: usize, n: usize) -> Option<usize>
        requires { j + n ≤ index_limit self.now.table }
        ensures { Tallied Table.Coarse self.now.memory.now self.now.at j n result }
    {
        let mut pages: u32 = 0;
        let mut bits: u32 = 0;
        for k in 0..n {
            let w = self.word(j + k);
            bits |= w;
            pages += w / 2 % 2;
        }
        if bits % 2 == 1 {
            None
        } else {
            Some(pages as usize)
        }
    }

    // The same of a fine table, by its two lowest bits and one: bit 1 says that one may, bit 2 that it is a page.
    #[inline(always)]
    fn tally_fine(&self, j: usize, n: usize) -> Option<usize>
        requires { j + n ≤ index_limit self.now.table }
        ensures { Tallied Table.Fine self.now.memory.now self.now.at j n result }
    {
        let mut pages: u32 = 0;
        let mut bits: u32 = 0;
        for k in 0..n {
            let s = self.word(j + k) % 4 + 1;
            bits |= s;
            pages += s / 4;
        }
        if bits / 2 % 2 == 1 {
            None
        } else {
            Some(pages as usize)
        }
    }

    // The same by the kind of table.
    // Kept: a sum for each kind of table; by one sum of signs for both, a check takes 1.4 times as long.
    #[inline(always)]
    fn tally(&self, j: usize, n: usize) -> Option<usize>
        requires { j + n ≤ index_limit self.now.table }
        ensures { Tallied self.now.table self.now.memory.now self.now.at j n result }
    {
        match self.table {
            Table::Coarse => self.tally_coarse(j, n),
            Table::Fine => self.tally_fine(j, n),
        }
    }

    // n words from word j on, one by one, where each page that takes more than one is broken.
    #[inline(always)]
    fn scan_each(&self, j: usize, n: usize) -> Result<usize, usize>
        requires { (j + n ≤ index_limit self.now.table) × BrokenOver self.now.table self.now.memory.now self.now.at j n 1 }
        ensures { Scanned self.now.table self.now.memory.now self.now.at j n result }
    {
        let mut pages = 0;
        for k in 0..n {
            let r = self.taken(j + k);
            if 1 < r {
                return Err(j + k);
            }
            pages += r;
        }
        Ok(pages)
    }

    // A group of n words from word j on: one page that takes them all, or pages that take a word each.
    #[inline(always)]
    fn scan_run(&self, j: usize, n: usize) -> Result<usize, usize>
        requires { (j + n ≤ index_limit self.now.table) × Grouped self.now.table self.now.memory.now self.now.at j n }
        ensures { Scanned self.now.table self.now.memory.now self.now.at j n result }
    {
        if self.taken(j) == n {
            return if self.all_are(j, n) { Ok(1) } else { Err(j) };
        }
        if let Some(pages) = self.tally(j, n) {
            return Ok(pages);
        }
        self.scan_each(j, n)
    }

    // A large page's group of a fine table from word j on that is none: by the groups of small pages.
    #[inline(always)]
    fn scan_smalls(&self, j: usize) -> Result<usize, usize>
        requires { (self.now.table ≡ Table.Fine) × (j + 64 ≤ index_limit Table.Fine) × (j % 64 ≡ 0) ×
            BrokenOver Table.Fine self.now.memory.now self.now.at j 64 4 }
        ensures { Scanned Table.Fine self.now.memory.now self.now.at j 64 result }
    {
        let mut pages = 0;
        for g in 0..16 {
            pages += self.scan_run(j + 4 * g, 4)?;
        }
        Ok(pages)
    }

    // A large page's group from word j on: how many pages it says, or its first broken word.
    #[inline(always)]
    fn scan_group(&self, j: usize) -> Result<usize, usize>
        requires { (j + repeats self.now.table Large ≤ index_limit self.now.table) × (j % repeats self.now.table Large ≡ 0) }
        ensures { Scanned self.now.table self.now.memory.now self.now.at j (repeats self.now.table Large) result }
    {
        let n = self.group();
        if self.taken(j) == n {
            return if self.all_are(j, n) { Ok(1) } else { Err(j) };
        }
        if let Some(pages) = self.tally(j, n) {
            return Ok(pages);
        }
        match self.table {
            Table::Coarse => self.scan_each(j, 16),
            Table::Fine => self.scan_smalls(j),
        }
    }

    // All words.
    #[inline(always)]
    pub(crate) fn scan(&self) -> Result<usize, usize>
        ensures { Scanned self.now.table self.now.memory.now self.now.at 0 (index_limit self.now.table) result }
    {
        let n = self.group();
        let mut pages = 0;
        for g in 0..GROUPS {
            pages += self.scan_group(g * n)?;
        }
        Ok(pages)
    }
}
