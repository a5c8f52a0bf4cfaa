// The cases, each group on a room made fresh at 7.
use crate::asks::{A, batch, begin, commit, leave, range, say, track};
use kinds::kind::Kind;
use machine::Which;
use manager::transaction_manager::{check_has_conflict, min_active_seq, new, new_transaction};
use room::ceilings::{ACTIVE_LIMIT, ENTRY_LIMIT, SIZE};
use std::io;
use std::io::Stdout;

// One byte less than the published size.
const SHORT: usize = SIZE - 1;

const B: u8 = 2;

// A range without a start, or without an end.
const WITHOUT: (Kind, usize) = (Kind::Unbounded, 0);

pub fn rooms(out: &Stdout) -> io::Result<()> {
    let mut short = [0u8; SHORT];
    let mut room = [0u8; SIZE];
    say(out, "fresh at 7, room one byte short", new(&mut short, 7))?;
    say(out, "minimum, room of zeros", min_active_seq(&room))?;
    say(
        out,
        "fresh at 7, room of the published size",
        new(&mut room, 7),
    )?;
    say(
        out,
        "minimum in that room, nobody active",
        min_active_seq(&room),
    )?;
    say(
        out,
        "minimum in that room, passed one byte short",
        min_active_seq(&room[0..SHORT]),
    )?;
    Ok(())
}

pub fn ids(out: &Stdout, room: &mut [u8; SIZE]) -> io::Result<()> {
    let _ = new(room, 7);
    say(
        out,
        "begin, id of 15 bytes",
        new_transaction(room, &[A; 15]),
    )?;
    say(
        out,
        "begin, id of 17 bytes",
        new_transaction(room, &[A; 17]),
    )?;
    say(
        out,
        "begin, id of 16 bytes",
        new_transaction(room, &[A; 16]),
    )?;
    say(
        out,
        "check, id of 15 bytes",
        check_has_conflict(room, &[A; 15]),
    )?;
    say(
        out,
        "check, id of 17 bytes",
        check_has_conflict(room, &[A; 17]),
    )?;
    say(
        out,
        "check, id of 16 bytes",
        check_has_conflict(room, &[A; 16]),
    )?;
    Ok(())
}

pub fn long_keys(out: &Stdout, room: &mut [u8; SIZE]) -> io::Result<()> {
    let _ = new(room, 7);
    let _ = begin(room, A);
    say(
        out,
        "write, key of 512 bytes",
        track(room, Which::Writes, 0, 1, 512),
    )?;
    say(
        out,
        "write, key of 513 bytes",
        track(room, Which::Writes, 0, 1, 513),
    )?;
    say(
        out,
        "read, key of 512 bytes",
        track(room, Which::Reads, 0, 1, 512),
    )?;
    say(
        out,
        "read, key of 513 bytes",
        track(room, Which::Reads, 0, 1, 513),
    )?;
    say(out, "batch at 8, key of 512 bytes", batch(room, 8, 1, 512))?;
    say(out, "batch at 9, key of 513 bytes", batch(room, 9, 1, 513))?;
    say(
        out,
        "check, the 512 bytes written at 8",
        check_has_conflict(room, &[A; 16]),
    )?;
    Ok(())
}

pub fn long_bounds(out: &Stdout, room: &mut [u8; SIZE]) -> io::Result<()> {
    let _ = new(room, 7);
    let _ = begin(room, A);
    say(
        out,
        "range from a key of 512 bytes",
        range(room, (Kind::Included, 512), WITHOUT),
    )?;
    say(
        out,
        "range from a key of 513 bytes",
        range(room, (Kind::Included, 513), WITHOUT),
    )?;
    say(
        out,
        "range to a key of 512 bytes",
        range(room, WITHOUT, (Kind::Excluded, 512)),
    )?;
    say(
        out,
        "range to a key of 513 bytes",
        range(room, WITHOUT, (Kind::Excluded, 513)),
    )?;
    Ok(())
}

pub fn active(out: &Stdout, room: &mut [u8; SIZE]) -> io::Result<()> {
    let _ = new(room, 7);
    for id in 0..ACTIVE_LIMIT as u8 - 1 {
        let _ = begin(room, id);
    }
    say(out, "begin number 32", begin(room, 32))?;
    say(out, "begin number 33", begin(room, 33))?;
    say(
        out,
        "begin of an active id, with 32 active",
        begin(room, 32),
    )?;
    say(out, "drop of one of the 32", leave(room, 32))?;
    say(out, "begin in its place", begin(room, 33))?;
    say(
        out,
        "begin of the dropped one, with 32 active",
        begin(room, 32),
    )?;
    Ok(())
}

pub fn marks(out: &Stdout, room: &mut [u8; SIZE]) -> io::Result<()> {
    let _ = new(room, 7);
    let _ = begin(room, A);
    say(
        out,
        "write, 1025 keys at once",
        track(room, Which::Writes, 0, 1025, 2),
    )?;
    say(
        out,
        "write, 1023 keys",
        track(room, Which::Writes, 0, 1023, 2),
    )?;
    say(
        out,
        "write, 2 keys with 1023 marks",
        track(room, Which::Writes, 1023, 2, 2),
    )?;
    say(
        out,
        "write, mark 1024",
        track(room, Which::Writes, 1023, 1, 2),
    )?;
    say(
        out,
        "write, mark 1025",
        track(room, Which::Writes, 1024, 1, 2),
    )?;
    say(out, "read, mark 1025", track(room, Which::Reads, 0, 1, 2))?;
    say(
        out,
        "range, mark 1025",
        range(room, (Kind::Included, 1), WITHOUT),
    )?;
    say(
        out,
        "write, 1024 keys that are in the set",
        track(room, Which::Writes, 0, 1024, 2),
    )?;
    Ok(())
}

pub fn key_bytes(out: &Stdout, room: &mut [u8; SIZE]) -> io::Result<()> {
    let _ = new(room, 7);
    let _ = begin(room, A);
    say(
        out,
        "write, 65 keys of 512 bytes at once",
        track(room, Which::Writes, 0, 65, 512),
    )?;
    say(
        out,
        "write, 64 keys of 512 bytes, 32768 in all",
        track(room, Which::Writes, 0, 64, 512),
    )?;
    say(
        out,
        "read, key of 1 byte, 32769 in all",
        track(room, Which::Reads, 0, 1, 1),
    )?;
    say(
        out,
        "range to a key of 1 byte, 32769 in all",
        range(room, WITHOUT, (Kind::Excluded, 1)),
    )?;
    say(
        out,
        "read, key of no bytes, 32768 in all",
        track(room, Which::Reads, 0, 1, 0),
    )?;
    say(
        out,
        "batch at 8, key of 1 byte, 32769 in all",
        batch(room, 8, 1, 1),
    )?;
    Ok(())
}

pub fn entries(out: &Stdout, room: &mut [u8; SIZE]) -> io::Result<()> {
    let _ = new(room, 7);
    let _ = begin(room, A);
    let _ = begin(room, B);
    for _ in 1..ENTRY_LIMIT {
        let _ = batch(room, 8, 1, 2);
    }
    say(out, "batch at 8, entry 128", batch(room, 8, 1, 2))?;
    say(out, "batch at 9, entry 129", batch(room, 9, 0, 0))?;
    say(
        out,
        "commit at 9 with 128 entries, another active",
        commit(room, A, 9),
    )?;
    say(out, "drop of the other, entries kept", leave(room, B))?;
    say(
        out,
        "batch at 9, entry 129, one active",
        batch(room, 9, 0, 0),
    )?;
    say(
        out,
        "commit at 9 with 128 entries, the only one active",
        commit(room, A, 9),
    )?;
    say(
        out,
        "batch at 10, 65 keys of 512 bytes, nobody active",
        batch(room, 10, 65, 512),
    )?;
    say(
        out,
        "drop of one that is not active, entries kept",
        leave(room, A),
    )?;
    Ok(())
}
