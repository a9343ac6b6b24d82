// How long the two kinds of second-level table are, and what one word of them stands for.
ghost use Rattle.std.specs.Prelude.{◌≡◌, ◌*◌, ◌^◌};
ghost use Rattle.walk.specs.Repeated.{word_bits, index_limit};

use crate::Table;

impl Table {
    // The bytes of a table.
    pub fn bytes(self) -> u32
        ensures { result ≡ 4 * index_limit self }
    {
        match self {
            Table::Coarse => 1024,
            Table::Fine => 4096,
        }
    }

    // How many addresses one word stands for.
    pub fn span(self) -> u32
        ensures { result ≡ 2 ^ word_bits self }
    {
        match self {
            Table::Coarse => 4096,
            Table::Fine => 1024,
        }
    }
}
