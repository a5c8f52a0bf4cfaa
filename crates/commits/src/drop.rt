// Drops: a transaction leaves, and entries that nobody can conflict with are pruned.
ghost use Rattle.machine.specs.Calls.{on, drop_txn};
ghost use Rattle.layout.specs.Rooms.{Served};
ghost use Rattle.room.specs.Views.{Seen};
ghost use Rattle.answers.specs.Says.{status_of, value_of};

use answers::{Outcome, Refusal};
use codec::numbers::write_two;
use edits::leaving::recycle_recent_committed_txns;
use edits::remove;
use layout::{ACTIVE_COUNT, ID};
use places::finds::find_txn;
use room::View;

// "Drop: remove the id if active, then prune, even for an unknown id."
pub fn drop_active(room: &mut [u8], v: View, id: &[u8]) -> Result<Outcome, Refusal>
    requires { Seen room.old v }
    ensures { Served room.old (on (drop_txn id.now)) (status_of result) (value_of result) room.new }
{
    if id.len() != ID {
        return Err(Refusal::Malformed);
    }
    let Ok(txn) = find_txn(room, v.middle, v.active, id) else {
        let kept = recycle_recent_committed_txns(room, v);
        return Ok(Outcome::Absent(kept as u64));
    };
    let gone = txn.to - txn.from;
    let rest = View {
        active: v.active - 1,
        used: v.used - gone,
        ..v
    };
    remove(room, v.used, txn.from, gone);
    write_two(room, ACTIVE_COUNT, rest.active);
    let kept = recycle_recent_committed_txns(room, rest);
    Ok(Outcome::Done(kept as u64))
}
