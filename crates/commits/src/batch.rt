// Batches: keys that were written without a transaction become an entry.
ghost use Rattle.machine.specs.Calls.{on, batch};
ghost use Rattle.layout.specs.Rooms.{Served};
ghost use Rattle.room.specs.Views.{Seen};
ghost use Rattle.answers.specs.Says.{status_of, value_of};
ghost use Rattle.commits.specs.Batches.{Entering};

use answers::{Outcome, Refusal};
use codec::numbers::write_two;
use edits::leaving::empty_recent_committed_txns;
use edits::oracle::advance_committed_seq;
use edits::put_entry;
use fields::check_keys;
use layout::ENTRY_COUNT;
use room::View;
use room::ceilings::{ENTRY_LIMIT, SET_SIZE};
use tracks::drafts::draft_keys;
use tracks::sets::{Set, Space};

// Puts an entry of a list's keys in behind the others, and the number advances, if the totals are kept.
fn enter_keys(room: &mut [u8], v: View, seq: u64, list: &[u8]) -> Result<Outcome, Refusal>
    requires { Seen room.old v × Entering v list.now }
    ensures { Served room.old (on (batch seq list.now)) (status_of result) (value_of result) room.new }
{
    // The largest set fits: without a heap a draft has one size.
    let mut draft = [0u8; SET_SIZE];
    let empty = Set { used: 0, count: 0 };
    let set = draft_keys(&mut draft, empty, list, Space::left(v))?;
    put_entry(room, v.used, v.middle, seq, &draft[..set.used]);
    write_two(room, ENTRY_COUNT, v.entries + 1);
    Ok(Outcome::Done(advance_committed_seq(room, seq)))
}

// "Write batch: the same with its own keys, an empty list included, and no id."
pub fn batch_entry(room: &mut [u8], v: View, seq: u64, list: &[u8]) -> Result<Outcome, Refusal>
    requires { Seen room.old v }
    ensures { Served room.old (on (batch seq list.now)) (status_of result) (value_of result) room.new }
{
    check_keys(list)?;
    if v.active == 0 {
        let value = v.last.max(seq);
        empty_recent_committed_txns(room, value);
        return Ok(Outcome::Done(value));
    }
    if ENTRY_LIMIT <= v.entries {
        return Err(Refusal::Full);
    }
    enter_keys(room, v, seq, list)
}
