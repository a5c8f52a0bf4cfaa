// Tracks: the keys and ranges that an active transaction reads and writes, put into its record.
#![tactic(auto)]

ghost use Rattle.std.specs.Prelude.{◌≡◌};
ghost use Rattle.machine.specs.Calls.{on, track_keys};
ghost use Rattle.layout.specs.Offsets.{any_length};
ghost use Rattle.layout.specs.Records.{txn_form};
ghost use Rattle.layout.specs.Rooms.{Served};
ghost use Rattle.layout.specs.Rows.{Here};
ghost use Rattle.room.specs.Views.{Seen};
ghost use Rattle.answers.specs.Says.{status_of, value_of};
ghost use Rattle.answers.specs.declared.Refusal.{Refusal};
ghost use Rattle.tracks.specs.Tracks.{SetAt, Growable, GrownIs};

use crate::drafts::draft_keys;
use crate::sets::{Full, Set, Space};
use answers::{Outcome, Refusal};
use codec::numbers::read_two;
use fields::check_keys;
use layout::{COUNT, ID, WRITES};
use machine::Which;
use moves::{copy_in, splice};
use places::finds::find_txn;
use places::skips::set_past;
use room::View;
use room::ceilings::SET_SIZE;

pub mod drafts;
pub mod range;
pub mod sets;

impl From<Full> for Refusal {
    ghost from_gives = { λ _ refusal. refusal ≡ Refusal.Full };

    fn from(_full: Full) -> Refusal {
        Refusal::Full
    }
}

// Puts the keys of a list into the set at a place, if there is space for the new ones; answers how many are new.
fn grow_set(
    room: &mut [u8],
    used: usize,
    at: usize,
    list: &[u8],
    space: Space,
) -> Result<usize, Full>
    requires { Growable room.old used at list.now space }
    ensures { GrownIs room.old used at list.now space room.new result }
{
    // The largest set fits: without a heap a draft has one size.
    let mut draft = [0u8; SET_SIZE];
    let from = at + COUNT;
    let end = set_past(room, at);
    let count = read_two(room, at);
    copy_in(&mut draft, COUNT, &room[from..end]);
    let old = Set {
        used: end - from,
        count,
    };
    let new = draft_keys(&mut draft, old, list, space)?;
    splice(room, used, at, end - at, &draft[..new.used]);
    Ok(new.count - count)
}

// Where a set of the transaction at a place stands: the reads stand behind the writes. The transaction is its place alone, as the
// room is lent beside it.
fn set_at(room: &[u8], txn: usize, which: Which) -> usize
    requires { Here (txn_form any_length) room.now txn }
    ensures { SetAt room.now txn which result }
{
    match which {
        Which::Writes => txn + WRITES,
        Which::Reads => set_past(room, txn + WRITES),
    }
}

// Adds the keys of a list to a set of a transaction.
pub fn track_keys(
    room: &mut [u8],
    v: View,
    which: Which,
    id: &[u8],
    list: &[u8],
) -> Result<Outcome, Refusal>
    requires { Seen room.old v }
    ensures { Served room.old (on (track_keys which id.now list.now)) (status_of result) (value_of result) room.new }
{
    if id.len() != ID {
        return Err(Refusal::Malformed);
    }
    check_keys(list)?;
    let Ok(txn) = find_txn(room, v.middle, v.active, id) else {
        return Ok(Outcome::Absent(0));
    };
    let set = set_at(room, txn.from, which);
    let new = grow_set(room, v.used, set, list, Space::left(v))?;
    Ok(Outcome::Done(new as u64))
}
