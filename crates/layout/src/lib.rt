// The record of a machine state in bytes, and the one contract of the calls on a room: definitions and their laws. The code has
// only the places and sizes, under the names that specs/Offsets.antt gives them.
#![tactic(auto)]

// ---- what numbers take

// A stamp, a sequence or a start.
pub const NUMBER: usize = 8;

// The count of a list.
pub const COUNT: usize = 2;

// A key's length.
pub const LENGTH: usize = 2;

// A bound's tag.
pub const TAG: usize = 1;

// An id.
pub const ID: usize = 16;

// ---- where the parts of a room stand

// The letters "Stranvk1": this format with its ceilings.
pub const STAMP: u64 = 0x537472616E766B31;

// The last number stands behind the stamp.
pub const LAST: usize = NUMBER;

// The room's own head ends, and its part begins.
pub const PART: usize = LAST + NUMBER;

pub const ENTRY_COUNT: usize = PART;

pub const ACTIVE_COUNT: usize = ENTRY_COUNT + COUNT;

// The entries begin behind the counts.
pub const ENTRIES: usize = ACTIVE_COUNT + COUNT;

// ---- where the parts of a record stand, from its beginning on

// An entry's keys stand behind its sequence.
pub const KEYS: usize = NUMBER;

// A transaction's start stands behind its id.
pub const START: usize = ID;

pub const WRITES: usize = START + NUMBER;

// A bound's key stands behind its tag and its length.
pub const BOUND: usize = TAG + LENGTH;

// ---- what records take beside key bytes

pub const ENTRY: usize = KEYS + COUNT;

pub const TXN: usize = WRITES + COUNT + COUNT + COUNT;

// A range takes more than a key.
pub const MARK: usize = BOUND + BOUND;
