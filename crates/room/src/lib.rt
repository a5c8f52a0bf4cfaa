// A lent room: the validating walk over it, once for each call.
#![tactic(auto)]

ghost use Rattle.std.specs.Prelude.{◌≡◌, ◌≤◌, length};
ghost use Rattle.machine.specs.State.{base};
ghost use Rattle.layout.specs.Offsets.{entries_at};
ghost use Rattle.layout.specs.States.{room_size};
ghost use Rattle.room.specs.Views.{HeadAt, soundly, Opening};

use crate::ceilings::{ACTIVE_LIMIT, BYTE_LIMIT, ENTRY_LIMIT, MARK_LIMIT, SIZE};
use crate::chain::chain_end;
use crate::record::{Entries, Txns};
use crate::tally::Tally;
use layout::{ACTIVE_COUNT, ENTRIES, ENTRY_COUNT, LAST, STAMP};

pub mod ceilings;
pub mod chain;
pub mod key;
pub mod range;
pub mod record;
pub mod tally;

// What stands before the entries: the last number, how many entries, how many active.
#[derive(Clone, Copy)]
struct Top {
    last: u64,
    entries: usize,
    active: usize,
}

// Where the parts of a state's record stand, and the machine's totals: the active ones begin at `middle`, the record ends at
// `used`. It doesn't hold the room: bytes that are lent and bytes that may change would need a view each.
#[derive(Clone, Copy)]
pub struct View {
    pub last: u64,
    pub entries: usize,
    pub active: usize,
    pub middle: usize,
    pub used: usize,
    pub marks: usize,
    pub bytes: usize,
}

// The head of a room, which the stamp decides.
fn head(room: &[u8]) -> Option<Top>
    requires { entries_at ≤ length room.now }
    ensures { HeadAt room.now result }
{
    let stamp = codec::numbers::read_eight(room, 0);
    if stamp != STAMP {
        return None;
    }
    let last = codec::numbers::read_eight(room, LAST);
    let entries = codec::numbers::read_two(room, ENTRY_COUNT);
    let active = codec::numbers::read_two(room, ACTIVE_COUNT);
    Some(Top {
        last,
        entries,
        active,
    })
}

// Whether the ceilings are kept, no start or sequence is above the last number, and nobody active means no entries.
fn sound(top: Top, t: Tally) -> bool
    ensures { result ≡ soundly top t }
{
    top.active <= ACTIVE_LIMIT
        && top.entries <= ENTRY_LIMIT
        && t.marks <= MARK_LIMIT
        && t.bytes <= BYTE_LIMIT
        && t.high <= top.last
        && (0 < top.active || top.entries == 0)
}

// The state's record that a room holds, if it holds one. No byte beyond the published size is looked at.
pub fn open(room: &[u8]) -> Option<View>
    ensures { Opening room.now result }
{
    if room.len() < SIZE {
        return None;
    }
    open_record(&room[..SIZE])
}

// The same, of a room that is as long as the published size at least.
fn open_record(room: &[u8]) -> Option<View>
    requires { room_size base ≤ length room.now }
    ensures { Opening room.now result }
{
    let top = head(room)?;
    let t = chain_end::<Entries>(room, ENTRIES, top.entries)?;
    let u = chain_end::<Txns>(room, t.end, top.active)?;
    let all = t.joined(u);
    if !sound(top, all) {
        return None;
    }
    Some(View {
        last: top.last,
        entries: top.entries,
        active: top.active,
        middle: t.end,
        used: all.end,
        marks: all.marks,
        bytes: all.bytes,
    })
}
