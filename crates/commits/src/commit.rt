// Commits: a transaction leaves, and its writes become an entry.
ghost use Rattle.machine.specs.Calls.{on, commit};
ghost use Rattle.layout.specs.Rooms.{Served};
ghost use Rattle.room.specs.Views.{Seen};
ghost use Rattle.answers.specs.Says.{status_of, value_of};
ghost use Rattle.commits.specs.Commits.{Leaving, Entered};

use answers::{Outcome, Refusal};
use codec::numbers::write_two;
use edits::leaving::empty_recent_committed_txns;
use edits::oracle::advance_committed_seq;
use edits::{put_entry, remove};
use fields::Span;
use layout::{ACTIVE_COUNT, ENTRY_COUNT, ID, WRITES};
use moves::copy_in;
use places::finds::find_txn;
use places::skips::set_past;
use room::View;
use room::ceilings::{ENTRY_LIMIT, SET_SIZE};

// Takes a transaction out, and puts an entry of its writes in behind the others.
fn enter_writes(room: &mut [u8], v: View, txn: Span, seq: u64)
    requires { Leaving room.old v.used v.middle txn.from txn.to }
    ensures { Entered room.old v.used v.middle txn.from txn.to seq room.new }
{
    // A draft, since taking the transaction out overwrites its writes; without a heap it has one size.
    let mut draft = [0u8; SET_SIZE];
    let from = txn.from + WRITES;
    let past = set_past(room, from);
    let size = past - from;
    let gone = txn.to - txn.from;
    copy_in(&mut draft, 0, &room[from..past]);
    remove(room, v.used, txn.from, gone);
    put_entry(room, v.used - gone, v.middle, seq, &draft[..size]);
}

// "the transaction leaves; its write set becomes the last entry; if nobody is active now, the list is emptied; the number
// advances"
pub fn commit_active(room: &mut [u8], v: View, id: &[u8], seq: u64) -> Result<Outcome, Refusal>
    requires { Seen room.old v }
    ensures { Served room.old (on (commit id.now seq)) (status_of result) (value_of result) room.new }
{
    if id.len() != ID {
        return Err(Refusal::Malformed);
    }
    let Ok(txn) = find_txn(room, v.middle, v.active, id) else {
        return Ok(Outcome::Absent(advance_committed_seq(room, seq)));
    };
    if v.active == 1 {
        let value = v.last.max(seq);
        empty_recent_committed_txns(room, value);
        return Ok(Outcome::Done(value));
    }
    if ENTRY_LIMIT <= v.entries {
        return Err(Refusal::Full);
    }
    enter_writes(room, v, txn, seq);
    write_two(room, ENTRY_COUNT, v.entries + 1);
    write_two(room, ACTIVE_COUNT, v.active - 1);
    Ok(Outcome::Done(advance_committed_seq(room, seq)))
}
