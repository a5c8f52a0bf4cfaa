ghost use Rattle.machine.specs.declared.Which.TheVariants.{Writes, Reads};
ghost use Rattle.machine.specs.Calls.{fresh, on, begin, track_keys, track_range, check, commit, batch, drop_txn, minimum};
ghost use Rattle.layout.specs.Rooms.{Served};
ghost use Rattle.answers.specs.Says.{status_of, value_of};

use answers::{Outcome, Refusal};
use machine::Which;
use room::open;

// Makes a room fresh at a last committed number, whatever it held.
pub fn new(room: &mut [u8], last: u64) -> Result<Outcome, Refusal>
    ensures { Served room.old (fresh last) (status_of result) (value_of result) room.new }
{
    begins::make_fresh(room, last)
}

pub fn new_transaction(room: &mut [u8], id: &[u8]) -> Result<Outcome, Refusal>
    ensures { Served room.old (on (begin id.now)) (status_of result) (value_of result) room.new }
{
    let view = open(room).ok_or(Refusal::NoState)?;
    begins::begin(room, view, id)
}

pub fn drop_txn(room: &mut [u8], id: &[u8]) -> Result<Outcome, Refusal>
    ensures { Served room.old (on (drop_txn id.now)) (status_of result) (value_of result) room.new }
{
    let view = open(room).ok_or(Refusal::NoState)?;
    commits::drop::drop_active(room, view, id)
}

pub fn track_write_keys(room: &mut [u8], id: &[u8], keys: &[u8]) -> Result<Outcome, Refusal>
    ensures { Served room.old (on (track_keys Writes id.now keys.now)) (status_of result) (value_of result) room.new }
{
    let view = open(room).ok_or(Refusal::NoState)?;
    tracks::track_keys(room, view, Which::Writes, id, keys)
}

pub fn track_read_keys(room: &mut [u8], id: &[u8], keys: &[u8]) -> Result<Outcome, Refusal>
    ensures { Served room.old (on (track_keys Reads id.now keys.now)) (status_of result) (value_of result) room.new }
{
    let view = open(room).ok_or(Refusal::NoState)?;
    tracks::track_keys(room, view, Which::Reads, id, keys)
}

pub fn track_read_range(room: &mut [u8], id: &[u8], range: &[u8]) -> Result<Outcome, Refusal>
    ensures { Served room.old (on (track_range id.now range.now)) (status_of result) (value_of result) room.new }
{
    let view = open(room).ok_or(Refusal::NoState)?;
    tracks::range::track_range(room, view, id, range)
}

pub fn check_has_conflict(room: &[u8], id: &[u8]) -> Result<Outcome, Refusal>
    ensures { Served room.now (on (check id.now)) (status_of result) (value_of result) room.now }
{
    let view = open(room).ok_or(Refusal::NoState)?;
    queries::check(room, view, id)
}

pub fn track_recent_committed_txn(room: &mut [u8], id: &[u8], seq: u64) -> Result<Outcome, Refusal>
    ensures { Served room.old (on (commit id.now seq)) (status_of result) (value_of result) room.new }
{
    let view = open(room).ok_or(Refusal::NoState)?;
    commits::commit::commit_active(room, view, id, seq)
}

pub fn track_recent_committed_write_batch(
    room: &mut [u8],
    keys: &[u8],
    seq: u64,
) -> Result<Outcome, Refusal>
    ensures { Served room.old (on (batch seq keys.now)) (status_of result) (value_of result) room.new }
{
    let view = open(room).ok_or(Refusal::NoState)?;
    commits::batch::batch_entry(room, view, seq, keys)
}

pub fn min_active_seq(room: &[u8]) -> Result<Outcome, Refusal>
    ensures { Served room.now (on minimum) (status_of result) (value_of result) room.now }
{
    let view = open(room).ok_or(Refusal::NoState)?;
    queries::minimum(room, view)
}
