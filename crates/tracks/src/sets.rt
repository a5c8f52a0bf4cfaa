// Sets of keys in a draft: the record of each key after the other, ascending.
ghost use Rattle.std.specs.Prelude.{◌≡◌, ◌+◌, ◌≤◌};
ghost use Rattle.machine.specs.State.{base};
ghost use Rattle.layout.specs.Rows.{Rows};
ghost use Rattle.tracks.specs.Sets.{key_codec, KeyPlaceIs, SpendIs, Ready, InsertedIs};

use fields::next_key;
use layout::LENGTH;
use moves::splice;
use places::skips::key_past;
use room::View;
use room::ceilings::{BYTE_LIMIT, MARK_LIMIT};

// A set of `count` keys in the first `used` bytes of a draft. `used` counts from the first key; a whole record's, from its count.
#[derive(Clone, Copy)]
pub struct Set {
    pub used: usize,
    pub count: usize,
}

// One of the two totals would be passed.
#[derive(Clone, Copy)]
pub struct Full;

// How many new marks and new key bytes find room.
#[derive(Clone, Copy)]
pub struct Space {
    pub marks: usize,
    pub bytes: usize,
}

impl Space {
    // What a state leaves of the two totals.
    pub fn left(v: View) -> Self
        requires { (v.marks ≤ base.marks) × (v.bytes ≤ base.bytes) }
        ensures marks { v.marks + result.marks ≡ base.marks }
        ensures bytes { v.bytes + result.bytes ≡ base.bytes }
    {
        Space {
            marks: MARK_LIMIT - v.marks,
            bytes: BYTE_LIMIT - v.bytes,
        }
    }

    // What is left when a mark with so many key bytes is put in.
    pub fn spend(self, size: usize) -> Result<Self, Full>
        ensures { SpendIs self size result }
    {
        if self.marks == 0 || self.bytes < size {
            return Err(Full);
        }
        Ok(Space {
            marks: self.marks - 1,
            bytes: self.bytes - size,
        })
    }
}

// Where a new key belongs in a set; none if it is there. Records differ in length, so it goes from one to the next.
fn find_place(draft: &[u8], count: usize, key: &[u8]) -> Option<usize>
    requires { Rows key_codec draft.now 0 count }
    ensures { KeyPlaceIs draft.now count key.now result }
{
    let mut at = 0;
    for _ in 0..count {
        let next = key_past(draft, at);
        let side = keys::compare(key, &draft[at + LENGTH..next]);
        if side < 0 {
            return Some(at);
        }
        if side == 0 {
            return None;
        }
        at = next;
    }
    Some(at)
}

// Puts the keys of a list into a set in a draft, if there is space for the new ones.
pub fn insert_all(
    draft: &mut [u8],
    mut set: Set,
    list: &[u8],
    mut space: Space,
) -> Result<Set, Full>
    requires { Ready draft.old set list.now space }
    ensures { InsertedIs draft.old set list.now space draft.new result }
{
    let mut at = 0;
    // The list reads to its end, as `Ready` says.
    while let Some(key) = next_key(list, at).unwrap() {
        at = key.to;
        let Some(place) = find_place(draft, set.count, &list[key.from..key.to]) else {
            continue;
        };
        let size = key.to - key.from;
        space = space.spend(size)?;
        splice(draft, set.used, place, 0, &list[key.from - LENGTH..key.to]);
        set = Set {
            used: set.used + LENGTH + size,
            count: set.count + 1,
        };
    }
    Ok(set)
}
