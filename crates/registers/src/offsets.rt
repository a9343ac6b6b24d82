// The offsets of Table 3.

pub const PREFETCH: u32 = 0x00;

pub const WALK_STATUS: u32 = 0x04;

pub const CONTROL: u32 = 0x08;

pub const FAULT_HIGH: u32 = 0x0c;

pub const FAULT_LOW: u32 = 0x10;

pub const FAULT_STATUS: u32 = 0x14;

pub const ACKNOWLEDGE: u32 = 0x18;

pub const BASE_HIGH: u32 = 0x1c;

pub const BASE_LOW: u32 = 0x20;

pub const LOCK: u32 = 0x24;

pub const LOAD: u32 = 0x28;

pub const CAM_HIGH: u32 = 0x2c;

pub const CAM_LOW: u32 = 0x30;

pub const RAM_HIGH: u32 = 0x34;

pub const RAM_LOW: u32 = 0x38;

pub const FLUSH: u32 = 0x3c;

pub const ENTRY_FLUSH: u32 = 0x40;

pub const READ_CAM_HIGH: u32 = 0x44;

pub const READ_CAM_LOW: u32 = 0x48;

pub const READ_RAM_HIGH: u32 = 0x4c;

pub const READ_RAM_LOW: u32 = 0x50;
