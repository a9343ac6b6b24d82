// Where addresses lie in the picture of nx map: a row for each megabyte, a pixel for each kilobyte.
ghost use Rattle.std.specs.Prelude.{◌≤◌};

// Where an address lies in its row.
pub(crate) fn left(at: u32) -> u64
    ensures { result ≤ 1119 }
{
    96 + (at % 1048576 / 1024) as u64
}

// Where an address's row lies.
pub(crate) fn top(at: u32) -> u64
    ensures { result ≤ 1000 }
{
    124 + 56 * (at / 1048576 % 16) as u64
}

// How wide a span of addresses is.
pub(crate) fn wide(from: u32, to: u32) -> u64
    ensures { result ≤ 2047 }
{
    (std::num::wrapping_sub_u32(to, from) / 1024 % 2048) as u64
}
