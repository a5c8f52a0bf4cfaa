// The boundary of the room: each call of the manager under a C name, with its contract; the room is lent for the call.
ghost use Rattle.std.specs.Prelude.{◌≡◌};
ghost use Rattle.machine.specs.State.{base};
ghost use Rattle.machine.specs.declared.Which.TheVariants.{Writes, Reads};
ghost use Rattle.machine.specs.Calls.{fresh, on, begin, track_keys, track_range, check, commit, batch, drop_txn, minimum};
ghost use Rattle.layout.specs.States.{room_size};
ghost use Rattle.layout.specs.Rooms.{Served};

use answers::Answer;
use manager::transaction_manager;
use room::ceilings::SIZE;

// How many bytes a room takes.
#[unsafe(no_mangle)]
pub extern "C" fn stranvek_room_size() -> usize
    ensures { result ≡ room_size base }
{
    SIZE
}

#[unsafe(no_mangle)]
pub extern "C" fn stranvek_new(room: &mut [u8], last: u64) -> Answer
    ensures { Served room.old (fresh last) result.status result.value room.new }
{
    Answer::from(transaction_manager::new(room, last))
}

#[unsafe(no_mangle)]
pub extern "C" fn stranvek_new_transaction(room: &mut [u8], id: &[u8]) -> Answer
    ensures { Served room.old (on (begin id.now)) result.status result.value room.new }
{
    Answer::from(transaction_manager::new_transaction(room, id))
}

#[unsafe(no_mangle)]
pub extern "C" fn stranvek_drop_txn(room: &mut [u8], id: &[u8]) -> Answer
    ensures { Served room.old (on (drop_txn id.now)) result.status result.value room.new }
{
    Answer::from(transaction_manager::drop_txn(room, id))
}

#[unsafe(no_mangle)]
pub extern "C" fn stranvek_track_write_keys(room: &mut [u8], id: &[u8], keys: &[u8]) -> Answer
    ensures { Served room.old (on (track_keys Writes id.now keys.now)) result.status result.value room.new }
{
    Answer::from(transaction_manager::track_write_keys(room, id, keys))
}

#[unsafe(no_mangle)]
pub extern "C" fn stranvek_track_read_keys(room: &mut [u8], id: &[u8], keys: &[u8]) -> Answer
    ensures { Served room.old (on (track_keys Reads id.now keys.now)) result.status result.value room.new }
{
    Answer::from(transaction_manager::track_read_keys(room, id, keys))
}

#[unsafe(no_mangle)]
pub extern "C" fn stranvek_track_read_range(room: &mut [u8], id: &[u8], range: &[u8]) -> Answer
    ensures { Served room.old (on (track_range id.now range.now)) result.status result.value room.new }
{
    Answer::from(transaction_manager::track_read_range(room, id, range))
}

#[unsafe(no_mangle)]
pub extern "C" fn stranvek_check_has_conflict(room: &[u8], id: &[u8]) -> Answer
    ensures { Served room.now (on (check id.now)) result.status result.value room.now }
{
    Answer::from(transaction_manager::check_has_conflict(room, id))
}

#[unsafe(no_mangle)]
pub extern "C" fn stranvek_track_recent_committed_txn(
    room: &mut [u8],
    id: &[u8],
    seq: u64,
) -> Answer
    ensures { Served room.old (on (commit id.now seq)) result.status result.value room.new }
{
    Answer::from(transaction_manager::track_recent_committed_txn(room, id, seq))
}

#[unsafe(no_mangle)]
pub extern "C" fn stranvek_track_recent_committed_write_batch(
    room: &mut [u8],
    keys: &[u8],
    seq: u64,
) -> Answer
    ensures { Served room.old (on (batch seq keys.now)) result.status result.value room.new }
{
    Answer::from(transaction_manager::track_recent_committed_write_batch(room, keys, seq))
}

#[unsafe(no_mangle)]
pub extern "C" fn stranvek_min_active_seq(room: &[u8]) -> Answer
    ensures { Served room.now (on minimum) result.status result.value room.now }
{
    Answer::from(transaction_manager::min_active_seq(room))
}
