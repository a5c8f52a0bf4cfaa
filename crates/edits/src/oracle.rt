// The number of the last commit, which only grows.
ghost use Rattle.std.specs.Prelude.{◌≤◌, length};
ghost use Rattle.codec.specs.Formats.{number};
ghost use Rattle.codec.specs.Stands.{Stands};
ghost use Rattle.layout.specs.Offsets.{number_size, last_at, part_at};
ghost use Rattle.edits.specs.Advance.{AdvancedTo};

use codec::numbers::{read_eight, write_eight};
use layout::LAST;

pub fn last_committed_seq(room: &[u8]) -> u64
    requires { part_at ≤ length room.now }
    ensures { Stands (number number_size) room.now last_at result part_at }
{
    read_eight(room, LAST)
}

// Keeps the larger of the old number and the new one, and answers it.
pub fn advance_committed_seq(room: &mut [u8], seq: u64) -> u64
    requires { part_at ≤ length room.old }
    ensures { AdvancedTo room.old seq room.new result }
{
    let last = last_committed_seq(room).max(seq);
    write_eight(room, LAST, last);
    last
}
