// Where the parts of a state lie among its bytes.

// Lock base and victim, behind the control registers and the table base.
pub(crate) const LOCK: usize = 8;

// The staged entry.
pub(crate) const STAGED: usize = LOCK + 4;

// The read registers.
pub(crate) const COPIED: usize = STAGED + SLOT;

// The slots: the CAM word of the first.
pub(crate) const SLOTS: usize = COPIED + SLOT;

// The bytes of a slot.
pub(crate) const SLOT: usize = 8;

// The RAM word of the first slot.
pub(crate) const RAM: usize = SLOTS + 4;

// The pending fault: its status.
pub(crate) const STATUS: usize = SLOTS + SLOT * lanes::SLOTS;

// Its access.
pub(crate) const ACCESS: usize = STATUS + 1;

// A zero byte.
pub(crate) const ZERO: usize = STATUS + 2;

// And another.
pub(crate) const LAST_ZERO: usize = STATUS + 3;

// Its address.
pub(crate) const ADDRESS: usize = STATUS + 4;

// The meters: fresh requests.
pub(crate) const FRESH: usize = ADDRESS + 4;

// Retries.
pub(crate) const RETRIES: usize = FRESH + 4;

// Words read.
pub(crate) const READ: usize = RETRIES + 4;

// The last row of the on-chip memory, behind the two figures.
pub(crate) const ROW: usize = READ + 4 + 16;

// The last row of the external memory.
pub(crate) const EXTERNAL_ROW: usize = ROW + 4;

// All bytes.
pub(crate) const END: usize = EXTERNAL_ROW + 4;
