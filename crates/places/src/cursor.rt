// A place in a row of records; the mark there answers for itself whether a key meets it.
ghost use Rattle.std.specs.Prelude.{◌≡◌, ◌+◌, ◌<◌, ◌≤◌, length};
ghost use Rattle.layout.specs.Offsets.{count_size, any_length};
ghost use Rattle.layout.specs.Keys.{key_form, bound_form, range_form};
ghost use Rattle.layout.specs.Rows.{Here};
ghost use Rattle.places.specs.Cursors.{past, CountAt, KindAt, IsKey, Holds};

use crate::skips::{bound_past, key_past};
use bounds::comparable_range::ComparableRange;
use codec::numbers::read_two;
use kinds::kind::Kind;
use layout::{BOUND, COUNT, LENGTH};

// Where the first of the records that are left stands, and how many they are. Records differ in length, so no slice of them
// stands for it.
#[derive(Clone, Copy)]
pub struct Cursor {
    pub at: usize,
    pub left: usize,
}

impl Cursor {
    // Before the records of the list at a place: they stand behind its count.
    pub fn of_list(room: &[u8], at: usize) -> Self
        requires { at + count_size ≤ length room.now }
        ensures { CountAt room.now at result }
    {
        Cursor {
            at: at + COUNT,
            left: read_two(room, at),
        }
    }

    // Past the first record, whose end the caller knows.
    pub fn past(self, end: usize) -> Self
        requires { 0 < self.left }
        ensures { result ≡ past self end }
    {
        Cursor {
            at: end,
            left: self.left - 1,
        }
    }

    // Whether the key there is this one.
    pub fn is_key(self, room: &[u8], key: &[u8]) -> bool
        requires { Here (key_form any_length) room.now self.at }
        ensures { IsKey room.now self key.now result }
    {
        let from = self.at + LENGTH;
        let to = key_past(room, self.at);
        keys::equal(key, &room[from..to])
    }

    // Whether the range there holds this key.
    pub fn holds(self, room: &[u8], key: &[u8]) -> bool
        requires { Here (range_form any_length) room.now self.at }
        ensures { Holds room.now self key.now result }
    {
        let middle = bound_past(room, self.at);
        let to = bound_past(room, middle);
        let start = kind_at(room, self.at);
        let end = kind_at(room, middle);
        let range = ComparableRange::new(start, end);
        let start_key = self.at + BOUND;
        let end_key = middle + BOUND;
        range.contains(&room[start_key..middle], &room[end_key..to], key)
    }
}

// A bound of a valid room has one of three tags.
fn kind_at(room: &[u8], at: usize) -> Kind
    requires { Here (bound_form any_length) room.now at }
    ensures { KindAt room.now at result }
{
    Kind::try_from(room[at]).unwrap()
}
