// The second-level table that a first-level word names: its kind, where it stands, and the virtual addresses
// of its words.
use walk::{First, Table};

// A second-level table, by its kind and where it stands.
#[derive(Clone, Copy)]
pub struct Second {
    pub kind: Table,
    pub at: u32,
}

// The name of a table's kind.
pub(crate) fn kind_name(t: Table) -> &'static str {
    match t {
        Table::Coarse => "coarse",
        Table::Fine => "fine",
    }
}

impl Second {
    // The table that a first-level word names.
    pub fn named(word: u32) -> Option<Second> {
        match walk::descriptors::decode_first(word) {
            First::Coarse(at) => Some(Second {
                kind: Table::Coarse,
                at: at.0,
            }),
            First::Fine(at) => Some(Second {
                kind: Table::Fine,
                at: at.0,
            }),
            First::Fault | First::Whole(_) => None,
        }
    }

    // Its bytes.
    pub fn size(self) -> u32 {
        match self.kind {
            Table::Coarse => 1024,
            Table::Fine => 4096,
        }
    }

    // The offset of the word at an address, where it is one of the table's.
    pub fn offset(self, at: u32) -> Option<u32> {
        at.checked_sub(self.at)
            .filter(|offset| *offset < self.size())
    }

    // The virtual addresses below those of the word at an offset.
    pub fn below(self, offset: u32) -> u64 {
        match self.kind {
            Table::Coarse => 1024 * u64::from(offset),
            Table::Fine => 256 * u64::from(offset),
        }
    }
}
