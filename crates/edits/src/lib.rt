// Changes of a room's bytes: parts of its record put in, taken out and moved.
#![tactic(auto)]

ghost use Rattle.std.specs.Prelude.{◌≡◌, ◌+◌, ◌≤◌, [], ◌++◌, length};
ghost use Rattle.machine.specs.Serve.{new_txn};
ghost use Rattle.codec.specs.Formats.{number};
ghost use Rattle.moves.specs.Splices.{Spliced};
ghost use Rattle.layout.specs.Offsets.{number_size, id_size, entries_at, txn_size, any_length};
ghost use Rattle.layout.specs.Records.{txn_form};
ghost use Rattle.edits.specs.Edits.{Freshened};

use crate::leaving::empty_recent_committed_txns;
use codec::numbers::write_eight;
use layout::{ID, KEYS, STAMP, START, TXN};
use moves::splice;

pub mod leaving;
pub mod oracle;

// Takes `n` bytes at a place out of the first `used` ones.
pub fn remove(room: &mut [u8], used: usize, at: usize, n: usize)
    requires { (at + n ≤ used) × (used ≤ length room.old) }
    ensures { Spliced room.old used at n [] room.new }
{
    splice(room, used, at, n, &[]);
}

// Writes the record of a fresh room's state.
pub fn write_fresh(room: &mut [u8], last: u64)
    requires { entries_at ≤ length room.old }
    ensures { Freshened room.old last room.new }
{
    write_eight(room, 0, STAMP);
    empty_recent_committed_txns(room, last);
}

// Puts the record of a transaction that has just begun in at a place of the first `used` bytes.
pub fn put_txn(room: &mut [u8], used: usize, at: usize, id: &[u8], start: u64)
    requires { (at ≤ used) × (used + txn_size ≤ length room.old) × (length id.now ≡ id_size) }
    ensures { Spliced room.old used at 0 ((txn_form any_length).write (new_txn id.now start)) room.new }
{
    // Each new transaction takes as many bytes.
    let mut new = [0; TXN];
    new[..ID].copy_from_slice(id);
    write_eight(&mut new, START, start);
    splice(room, used, at, 0, &new);
}

// Puts the record of an entry in, whose set's record is given.
pub fn put_entry(room: &mut [u8], used: usize, at: usize, seq: u64, set: &[u8])
    requires { (at ≤ used) × (used + (number_size + length set.now) ≤ length room.old) }
    ensures { Spliced room.old used at 0 ((number number_size).write seq ++ set.now) room.new }
{
    splice(room, used, at, 0, &seq.to_be_bytes());
    splice(room, used + KEYS, at + KEYS, 0, set);
}
