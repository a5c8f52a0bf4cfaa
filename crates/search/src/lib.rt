// Check's search through a room that is known to hold a state.
#![tactic(auto)]

ghost use Rattle.layout.specs.Offsets.{any_length};
ghost use Rattle.layout.specs.Records.{entry_form, txn_form};
ghost use Rattle.layout.specs.Rows.{Here, Rows};
ghost use Rattle.search.specs.Search.{Searched};

use crate::marks::Marks;
use codec::numbers::read_eight;
use layout::{KEYS, LENGTH, START};
use places::cursor::Cursor;
use places::skips::{entry_past, key_past};

pub mod marks;

// Whether one of the entries at a place is later than the start of the transaction at another and wrote a key that it tracks.
// The transaction is its place alone, as the room is lent beside it.
pub fn conflicts(room: &[u8], at: usize, entries: usize, txn: usize) -> bool
    requires rows { Rows (entry_form any_length) room.now at entries }
    requires here { Here (txn_form any_length) room.now txn }
    ensures { Searched room.now at entries txn result }
{
    let start = read_eight(room, txn + START);
    let marks = Marks::of(room, txn);
    let mut found = false;
    let mut entry = at;
    'search: for _ in 0..entries {
        if start < read_eight(room, entry) {
            let keys = Cursor::of_list(room, entry + KEYS);
            let mut key = keys.at;
            'keys: for _ in 0..keys.left {
                let to = key_past(room, key);
                let mut m = marks;
                // Marks stand in three rows, and a cursor says how many each has left.
                while !m.is_over() {
                    if m.meets(room, &room[key + LENGTH..to]) {
                        found = true;
                        break 'search;
                    }
                    m = m.next(room);
                }
                key = to;
            }
        }
        entry = entry_past(room, entry);
    }
    found
}
