// A fresh room, and a transaction's begin.
#![tactic(auto)]

ghost use Rattle.machine.specs.Calls.{fresh, on, begin};
ghost use Rattle.layout.specs.Rooms.{Served};
ghost use Rattle.room.specs.Views.{Seen};
ghost use Rattle.answers.specs.Says.{status_of, value_of};

use answers::{Outcome, Refusal};
use codec::numbers::write_two;
use edits::oracle::last_committed_seq;
use edits::{put_txn, write_fresh};
use layout::{ACTIVE_COUNT, ID};
use places::finds::find_txn;
use room::View;
use room::ceilings::{ACTIVE_LIMIT, SIZE};

// Makes a room fresh, whatever it held.
pub fn make_fresh(room: &mut [u8], last: u64) -> Result<Outcome, Refusal>
    ensures { Served room.old (fresh last) (status_of result) (value_of result) room.new }
{
    if room.len() < SIZE {
        return Err(Refusal::NoState);
    }
    write_fresh(room, last);
    Ok(Outcome::Done(last))
}

// Begins a transaction at the last committed number.
pub fn begin(room: &mut [u8], v: View, id: &[u8]) -> Result<Outcome, Refusal>
    requires { Seen room.old v }
    ensures { Served room.old (on (begin id.now)) (status_of result) (value_of result) room.new }
{
    if id.len() != ID {
        return Err(Refusal::Malformed);
    }
    let Err(at) = find_txn(room, v.middle, v.active, id) else {
        return Err(Refusal::Again);
    };
    if ACTIVE_LIMIT <= v.active {
        return Err(Refusal::Full);
    }
    let start = last_committed_seq(room);
    put_txn(room, v.used, at, id, start);
    write_two(room, ACTIVE_COUNT, v.active + 1);
    Ok(Outcome::Done(start))
}
