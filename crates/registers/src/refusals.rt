// The paper's numbers of the unit's refusals.

// An address beyond the last virtual one.
pub const ADDRESS: u8 = 1;

// A fault is pending.
pub const PENDING: u8 = 2;

// A word of the walk is in neither memory.
pub const NO_WORD: u8 = 3;

// Memories that cannot be lent.
pub const MEMORIES: u8 = 4;

// No register has that offset.
pub const NO_REGISTER: u8 = 5;

// A register that is only read, or only written.
pub const ONE_WAY: u8 = 6;

// Not as the unit stands.
pub const UNTIMELY: u8 = 7;

// A value or a device out of range.
pub const RANGE: u8 = 8;

// Prices or a bill that cannot be.
pub const MONEY: u8 = 9;
