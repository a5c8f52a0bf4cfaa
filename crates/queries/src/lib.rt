// The calls that only look: check and minimum.
#![tactic(auto)]

ghost use Rattle.machine.specs.Calls.{on, check, minimum};
ghost use Rattle.layout.specs.Rooms.{Served};
ghost use Rattle.room.specs.Views.{Seen};
ghost use Rattle.answers.specs.Says.{status_of, value_of};

use answers::{Outcome, Refusal};
use layout::{ENTRIES, ID};
use places::finds::{find_txn, least_start};
use room::View;
use search::conflicts;

// Says whether an active transaction conflicts with an entry.
pub fn check(room: &[u8], v: View, id: &[u8]) -> Result<Outcome, Refusal>
    requires { Seen room.now v }
    ensures { Served room.now (on (check id.now)) (status_of result) (value_of result) room.now }
{
    if id.len() != ID {
        return Err(Refusal::Malformed);
    }
    let Ok(txn) = find_txn(room, v.middle, v.active, id) else {
        return Ok(Outcome::Absent(0));
    };
    let verdict = conflicts(room, ENTRIES, v.entries, txn.from);
    Ok(Outcome::Done(u64::from(verdict)))
}

// The smallest start of an active transaction.
pub fn minimum(room: &[u8], v: View) -> Result<Outcome, Refusal>
    requires { Seen room.now v }
    ensures { Served room.now (on minimum) (status_of result) (value_of result) room.now }
{
    if v.active == 0 {
        return Ok(Outcome::Absent(0));
    }
    let value = least_start(room, v.middle, v.active, v.last);
    Ok(Outcome::Done(value))
}
