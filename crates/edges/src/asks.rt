// The calls, with the lists, bounds and ids that the cases ask with.
ghost use Rattle.std.specs.Prelude.{◌+◌, ◌≤◌};

use crate::lists::{put_field, put_keys};
use answers::{Answer, Outcome, Refusal};
use kinds::kind::Kind;
use layout::ID;
use machine::Which;
use manager::transaction_manager::{
    drop_txn, new_transaction, track_read_keys, track_read_range, track_recent_committed_txn,
    track_recent_committed_write_batch, track_write_keys,
};
use room::ceilings::SIZE;
use std::io;
use std::io::Stdout;

// Place for 65 keys of 512 bytes, and for the number of one more: an array, since the program has no heap.
const LIST: usize = 33480;

// Place for a bound of 513 bytes and an unbounded one.
const BOUNDS: usize = 519;

// The transaction that tracks.
pub const A: u8 = 1;

// What a call says.
pub type Said = Result<Outcome, Refusal>;

pub fn say(out: &Stdout, asked: &str, said: Said) -> io::Result<()> {
    let answer = Answer::from(said);
    println!(out; "{asked}: {} {}", answer.status, answer.value)
}

pub fn begin(room: &mut [u8; SIZE], id: u8) -> Said {
    new_transaction(room, &[id; ID])
}

pub fn commit(room: &mut [u8; SIZE], id: u8, seq: u64) -> Said {
    track_recent_committed_txn(room, &[id; ID], seq)
}

pub fn leave(room: &mut [u8; SIZE], id: u8) -> Said {
    drop_txn(room, &[id; ID])
}

// Adds keys of one size, numbered on from the first, to one of the two sets. The manager has a call for each, as the host has.
pub fn track(room: &mut [u8; SIZE], which: Which, first: usize, count: usize, size: usize) -> Said
    requires { (first + count ≤ 65536) × (size ≤ 65535) }
{
    let mut list = [b'a'; LIST];
    let n = put_keys(&mut list, first, count, size);
    match which {
        Which::Writes => track_write_keys(room, &[A; ID], &list[..n]),
        Which::Reads => track_read_keys(room, &[A; ID], &list[..n]),
    }
}

pub fn batch(room: &mut [u8; SIZE], seq: u64, count: usize, size: usize) -> Said
    requires { (count ≤ 65536) × (size ≤ 65535) }
{
    let mut list = [b'a'; LIST];
    let n = put_keys(&mut list, 0, count, size);
    track_recent_committed_write_batch(room, &list[..n], seq)
}

// A range between two bounds, each by its kind and its key's size.
pub fn range(room: &mut [u8; SIZE], start: (Kind, usize), end: (Kind, usize)) -> Said
    requires { start.1 + end.1 ≤ 513 }
{
    let mut bounds = [b'a'; BOUNDS];
    let at = put_field(&mut bounds, 0, u8::from(start.0), start.1);
    let to = put_field(&mut bounds, at, u8::from(end.0), end.1);
    track_read_range(room, &[A; ID], &bounds[..to])
}
