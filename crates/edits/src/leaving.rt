// Leaving the list: the one place where entries are pruned and the list is emptied.
ghost use Rattle.std.specs.Prelude.{◌≤◌, length};
ghost use Rattle.layout.specs.Offsets.{entries_at, any_length};
ghost use Rattle.layout.specs.Records.{entry_form};
ghost use Rattle.layout.specs.Rows.{Rows};
ghost use Rattle.edits.specs.Edits.{HeadsEmptied};
ghost use Rattle.edits.specs.Leaving.{Prunes, Prunable, Recycled, Emptied};

use crate::remove;
use codec::numbers::{read_eight, write_eight, write_two};
use layout::{ACTIVE_COUNT, ENTRIES, ENTRY_COUNT, LAST};
use moves::shift;
use places::finds::least_start;
use places::skips::entry_past;
use room::View;

// How many entries are kept, and where they end.
#[derive(Clone, Copy)]
struct Kept {
    count: usize,
    end: usize,
}

// Moves the entries whose sequence is at least `least` together, behind the heads.
fn prune_entries(room: &mut [u8], n: usize, least: u64) -> Kept
    requires { Rows (entry_form any_length) room.old entries_at n }
    ensures { Prunes room.old n least room.new result }
{
    let mut end = ENTRIES;
    let mut count = 0;
    let mut next = ENTRIES;
    for _ in 0..n {
        let from = next;
        next = entry_past(room, from);
        if read_eight(room, from) < least {
            continue;
        }
        shift(room, from, end, next - from);
        end += next - from;
        count += 1;
    }
    Kept { count, end }
}

// "if nobody is active now, the list is emptied"
pub fn empty_recent_committed_txns(room: &mut [u8], last: u64)
    requires { entries_at ≤ length room.old }
    ensures changed { Emptied room.old last room.new }
    ensures written { HeadsEmptied room.old last room.new }
{
    write_eight(room, LAST, last);
    write_two(room, ENTRY_COUNT, 0);
    write_two(room, ACTIVE_COUNT, 0);
}

// Prunes the entries that no active transaction can conflict with, and answers how many are kept.
pub fn recycle_recent_committed_txns(room: &mut [u8], v: View) -> usize
    requires { Prunable room.old v.last v.entries v.active v.middle v.used }
    ensures { Recycled room.old v.last v.entries v.active v.middle v.used room.new result }
{
    if v.active == 0 {
        empty_recent_committed_txns(room, v.last);
        return 0;
    }
    let least = least_start(room, v.middle, v.active, v.last);
    let kept = prune_entries(room, v.entries, least);
    remove(room, v.used, kept.end, v.middle - kept.end);
    write_two(room, ENTRY_COUNT, kept.count);
    kept.count
}
