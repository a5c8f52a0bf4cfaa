// The walk over keys: one of them, and those of a set.
ghost use Rattle.std.specs.Prelude.{◌+◌, ◌≤◌, length};
ghost use Rattle.keys.specs.Limit.{key_limit};
ghost use Rattle.room.specs.Chains.{the_keys};
ghost use Rattle.room.specs.Counts.{a_key};
ghost use Rattle.room.specs.Walks.{Walks};
ghost use Rattle.room.specs.Links.{keys_linked};

use crate::chain::Chained;
use crate::tally::Tally;
use keys::KEY_LIMIT;
use layout::LENGTH;

// Where the key at a place ends, which has at most `limit` bytes.
pub fn key_end(room: &[u8], at: usize, limit: usize) -> Option<Tally>
    requires { at ≤ length room.now }
    ensures { Walks (a_key limit) room.now at result }
{
    if room.len() - at < LENGTH {
        return None;
    }
    let n = codec::numbers::read_two(room, at);
    if limit.min(room.len() - at - LENGTH) < n {
        return None;
    }
    Some(Tally {
        end: at + LENGTH + n,
        marks: 1,
        bytes: n,
        high: 0,
    })
}

// The keys of a set: each is above the one before.
pub struct Keys;

impl Chained for Keys {
    ghost chain = { the_keys key_limit };

    fn one_end(room: &[u8], at: usize) -> Option<Tally> {
        key_end(room, at, KEY_LIMIT)
    }

    fn may_follow(room: &[u8], p: usize, e: usize, next: usize) -> bool {
        p == e || keys::compare(&room[p + LENGTH..e], &room[e + LENGTH..next]) < 0
    }

    ghost linked = { keys_linked key_limit };
}
