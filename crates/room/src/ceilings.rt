// The room's ceilings, and the sizes that follow from them and from the layout.
use layout::{COUNT, ENTRIES, ENTRY, LENGTH, MARK, TXN};

pub const ACTIVE_LIMIT: usize = 32;

pub const ENTRY_LIMIT: usize = 128;

pub const MARK_LIMIT: usize = 1024;

pub const BYTE_LIMIT: usize = 32768;

// What the largest machine state takes: `room_size` of the ceilings.
pub const SIZE: usize = ENTRIES
    + ENTRY * ENTRY_LIMIT
    + TXN * ACTIVE_LIMIT
    + MARK * MARK_LIMIT
    + BYTE_LIMIT;

// What the record of the largest set takes: its count, its lengths and its key bytes.
pub const SET_SIZE: usize = COUNT + LENGTH * MARK_LIMIT + BYTE_LIMIT;
