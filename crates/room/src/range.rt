// The walk over bounds and ranges.
ghost use Rattle.std.specs.Prelude.{◌≡◌, ◌≤◌, length};
ghost use Rattle.keys.specs.Limit.{key_limit};
ghost use Rattle.room.specs.Counts.{a_range};
ghost use Rattle.room.specs.Chains.{loose};
ghost use Rattle.room.specs.Links.{loose_linked};
ghost use Rattle.room.specs.BoundWalks.{BoundIs, longest_key};

use crate::chain::Chained;
use crate::key::key_end;
use crate::tally::Tally;
use bounds::comparable_range::ComparableRange;
use keys::KEY_LIMIT;
use kinds::kind::Kind;
use layout::{BOUND, TAG};

// A bound that stands in a room: its kind, and where it ends.
#[derive(Clone, Copy)]
struct StoredBound {
    kind: Kind,
    end: usize,
}

// The bound at a place: a tag and a key.
fn bound_end(room: &[u8], at: usize) -> Option<StoredBound>
    requires { at ≤ length room.now }
    ensures { BoundIs key_limit room.now at result }
{
    let kind = Kind::try_from(*room.get(at)?).ok()?;
    let key = key_end(room, at + TAG, limit_of(kind))?;
    Some(StoredBound { kind, end: key.end })
}

// How long a key may be that stands with a kind.
fn limit_of(kind: Kind) -> usize
    ensures { result ≡ longest_key key_limit kind }
{
    match kind {
        Kind::Unbounded => 0,
        Kind::Included | Kind::Excluded => KEY_LIMIT,
    }
}

// The ranges of a transaction, in any order.
pub struct Ranges;

impl Chained for Ranges {
    ghost chain = { loose (a_range key_limit) };

    // A range is not empty.
    fn one_end(room: &[u8], at: usize) -> Option<Tally> {
        let start = bound_end(room, at)?;
        let end = bound_end(room, start.end)?;
        let a = at + BOUND;
        let b = start.end + BOUND;
        let range = ComparableRange::new(start.kind, end.kind);
        if !range.non_empty(&room[a..start.end], &room[b..end.end]) {
            return None;
        }
        Some(Tally {
            end: end.end,
            marks: 1,
            bytes: start.end - a + (end.end - b),
            high: 0,
        })
    }

    fn may_follow(_room: &[u8], _p: usize, _e: usize, _next: usize) -> bool {
        true
    }

    ghost linked = { loose_linked (a_range key_limit) };
}
