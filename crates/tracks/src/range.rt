// Tracks of ranges: a range's bounds, as they are given, are its record.
ghost use Rattle.std.specs.Prelude.{◌≡◌};
ghost use Rattle.fields.specs.Fields.{bounds_of};
ghost use Rattle.machine.specs.Calls.{on, track_range};
ghost use Rattle.layout.specs.Rooms.{Served};
ghost use Rattle.room.specs.Views.{Seen};
ghost use Rattle.answers.specs.Says.{status_of, value_of};
ghost use Rattle.tracks.specs.Ranges.{judged, Appendable, Appended};

use crate::sets::Space;
use answers::{Outcome, Refusal};
use bounds::comparable_range::ComparableRange;
use codec::numbers::{read_two, write_two};
use fields::{Span, read_bounds};
use keys::KEY_LIMIT;
use layout::{ID, WRITES};
use moves::splice;
use places::finds::find_txn;
use places::skips::set_past;
use room::View;

// Document 01's verdict on bounds: how many key bytes their range has, or why it is refused (2, 4, 5).
fn check_range(bounds: &[u8]) -> Result<usize, Refusal>
    ensures { result ≡ judged (bounds_of bounds.now) }
{
    let places = read_bounds(bounds)?;
    let start = places.start.key;
    let end = places.end.key;
    let start_size = start.to - start.from;
    let end_size = end.to - end.from;
    if KEY_LIMIT < start_size || KEY_LIMIT < end_size {
        return Err(Refusal::LongKey);
    }
    let range = ComparableRange::new(places.start.kind, places.end.kind);
    if !range.non_empty(&bounds[start.from..start.to], &bounds[end.from..end.to]) {
        return Err(Refusal::EmptyRange);
    }
    Ok(start_size + end_size)
}

// Puts a range last among those of a transaction, and raises their count.
fn append_range(room: &mut [u8], used: usize, txn: Span, bounds: &[u8])
    requires { Appendable room.old used txn bounds.now }
    ensures { Appended room.old used txn bounds.now room.new }
{
    let at = set_past(room, set_past(room, txn.from + WRITES));
    let count = read_two(room, at);
    splice(room, used, txn.to, 0, bounds);
    write_two(room, at, count + 1);
}

// Appends a range to those of a transaction.
pub fn track_range(room: &mut [u8], v: View, id: &[u8], bounds: &[u8]) -> Result<Outcome, Refusal>
    requires { Seen room.old v }
    ensures { Served room.old (on (track_range id.now bounds.now)) (status_of result) (value_of result) room.new }
{
    if id.len() != ID {
        return Err(Refusal::Malformed);
    }
    let size = check_range(bounds)?;
    let Ok(txn) = find_txn(room, v.middle, v.active, id) else {
        return Ok(Outcome::Absent(0));
    };
    Space::left(v).spend(size)?;
    append_range(room, v.used, txn, bounds);
    Ok(Outcome::Done(1))
}
