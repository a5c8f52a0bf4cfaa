// A whole record served on a room.
ghost use Rattle.machine.specs.Calls.{on};
ghost use Rattle.layout.specs.Rooms.{Served};
ghost use Rattle.answers.specs.Says.{status_of, value_of};
ghost use Rattle.script.specs.Script.{keys_of, called, refused_call, IdEnds};

use crate::records::Tag;
use answers::{Outcome, Refusal};
use codec::numbers::read_eight;
use layout::{ID, NUMBER};
use machine::Which;
use manager::transaction_manager::{
    check_has_conflict, drop_txn, min_active_seq, new_transaction, track_read_keys,
    track_read_range, track_recent_committed_txn, track_recent_committed_write_batch,
    track_write_keys,
};

pub fn serve_record(room: &mut [u8], tag: u8, payload: &[u8]) -> Result<Outcome, Refusal>
    ensures { Served room.old (called tag payload.now) (status_of result) (value_of result) room.new }
{
    let Ok(tag) = Tag::try_from(tag) else {
        return refuse(room);
    };
    // What each record is, a line a tag; no table says with which arguments.
    match tag {
        Tag::Begin => new_transaction(room, payload),
        Tag::Writes => serve_keys(room, Which::Writes, payload),
        Tag::Reads => serve_keys(room, Which::Reads, payload),
        Tag::Range => serve_range(room, payload),
        Tag::Check => check_has_conflict(room, payload),
        Tag::Commit => serve_commit(room, payload),
        Tag::Batch => serve_batch(room, payload),
        Tag::Drop => drop_txn(room, payload),
        Tag::Minimum => serve_minimum(room, payload),
    }
}

// Status 2, or 7 where the room holds no state: an id of no bytes is refused in every state.
fn refuse(room: &[u8]) -> Result<Outcome, Refusal>
    ensures { Served room.now refused_call (status_of result) (value_of result) room.now }
{
    check_has_conflict(room, b"")
}

// Where a payload's id ends, or the payload where it has fewer bytes than an id.
fn id_end(payload: &[u8]) -> usize
    ensures { IdEnds payload.now result }
{
    payload.len().min(ID)
}

// The keys of one of the two sets. The manager has a call for each, as the host has.
fn serve_keys(room: &mut [u8], which: Which, payload: &[u8]) -> Result<Outcome, Refusal>
    ensures { Served room.old (on (keys_of which payload.now)) (status_of result) (value_of result) room.new }
{
    let (id, keys) = payload.split_at(id_end(payload));
    match which {
        Which::Writes => track_write_keys(room, id, keys),
        Which::Reads => track_read_keys(room, id, keys),
    }
}

fn serve_range(room: &mut [u8], payload: &[u8]) -> Result<Outcome, Refusal>
    ensures { Served room.old (called 4 payload.now) (status_of result) (value_of result) room.new }
{
    let (id, range) = payload.split_at(id_end(payload));
    track_read_range(room, id, range)
}

fn serve_commit(room: &mut [u8], payload: &[u8]) -> Result<Outcome, Refusal>
    ensures { Served room.old (called 6 payload.now) (status_of result) (value_of result) room.new }
{
    if payload.len() != ID + NUMBER {
        return refuse(room);
    }
    let seq = read_eight(payload, ID);
    track_recent_committed_txn(room, &payload[..ID], seq)
}

fn serve_batch(room: &mut [u8], payload: &[u8]) -> Result<Outcome, Refusal>
    ensures { Served room.old (called 7 payload.now) (status_of result) (value_of result) room.new }
{
    if payload.len() < NUMBER {
        return refuse(room);
    }
    let seq = read_eight(payload, 0);
    track_recent_committed_write_batch(room, &payload[NUMBER..], seq)
}

fn serve_minimum(room: &[u8], payload: &[u8]) -> Result<Outcome, Refusal>
    ensures { Served room.now (called 9 payload.now) (status_of result) (value_of result) room.now }
{
    if !payload.is_empty() {
        return refuse(room);
    }
    min_active_seq(room)
}
