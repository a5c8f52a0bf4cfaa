// The walk over an entry, over a transaction, and over all that are active.
ghost use Rattle.keys.specs.Limit.{key_limit};
ghost use Rattle.room.specs.Counts.{an_entry};
ghost use Rattle.room.specs.Chains.{loose, the_txns};
ghost use Rattle.room.specs.Links.{loose_linked, txns_linked};

use crate::chain::{Chained, list_end};
use crate::key::Keys;
use crate::range::Ranges;
use crate::tally::Tally;
use layout::{ID, KEYS, START, WRITES};

// The entries of a state, in any order.
pub struct Entries;

impl Chained for Entries {
    ghost chain = { loose (an_entry key_limit) };

    fn one_end(room: &[u8], at: usize) -> Option<Tally> {
        if room.len() - at < KEYS {
            return None;
        }
        let high = codec::numbers::read_eight(room, at);
        let keys = list_end::<Keys>(room, at + KEYS)?;
        Some(Tally { high, ..keys })
    }

    fn may_follow(_room: &[u8], _p: usize, _e: usize, _next: usize) -> bool {
        true
    }

    ghost linked = { loose_linked (an_entry key_limit) };
}

// The transactions of a state: each id is above the one before.
pub struct Txns;

impl Chained for Txns {
    ghost chain = { the_txns key_limit };

    fn one_end(room: &[u8], at: usize) -> Option<Tally> {
        if room.len() - at < WRITES {
            return None;
        }
        let high = codec::numbers::read_eight(room, at + START);
        let writes = list_end::<Keys>(room, at + WRITES)?;
        let reads = list_end::<Keys>(room, writes.end)?;
        let ranges = list_end::<Ranges>(room, reads.end)?;
        let all = writes.joined(reads).joined(ranges);
        Some(Tally { high, ..all })
    }

    fn may_follow(room: &[u8], p: usize, e: usize, next: usize) -> bool {
        p == e || keys::compare(&room[p..p + ID], &room[e..e + ID]) < 0
    }

    ghost linked = { txns_linked key_limit };
}
