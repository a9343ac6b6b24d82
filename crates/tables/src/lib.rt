#![tactic(auto)]
// Where the tables of a list lie.
pub mod words;

ghost use Rattle.std.specs.Prelude.{◌≡◌};
ghost use Rattle.tables.specs.Tables.{table_size, start_after};

use walk::Table;

// The bytes of a table.
pub fn table_size(t: Option<Table>) -> u32
    ensures { result ≡ table_size t }
{
    t.map_or(0, |table| table.bytes())
}

// Where a table begins that follows an offset.
pub fn start_after(t: Option<Table>, e: u32) -> u64
    ensures { result ≡ start_after t e }
{
    match t {
        Some(table) => {
            let size = table.bytes() as u64;
            (e as u64).div_ceil(size) * size
        }
        None => e as u64,
    }
}
