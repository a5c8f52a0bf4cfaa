// Moves of bytes within a lent run of bytes, up to the splice.
#![tactic(auto)]

ghost use Rattle.std.specs.Prelude.{◌≡◌, ◌+◌, ◌≤◌, length, drop};
ghost use Rattle.std.proofs.Math.Seq.{paste};
ghost use Rattle.moves.specs.Splices.{Spliced, used_after};

// Copies a slice into another from a place on: byte by byte, since of std's `copy_from_slice` between two lent slices the compiler
// makes a call of memmove, which the archive would have to ask its host for.
pub fn copy_in(room: &mut [u8], at: usize, src: &[u8])
    requires { at + length src.now ≤ length room.old }
    ensures { room.new ≡ paste room.old at src.now (length src.now) }
{
    for i in 0..src.len() {
        room[at + i] = src[i];
    }
}

// Copies `n` bytes from one place to another; bytes that stay where they are cost nothing.
pub fn shift(room: &mut [u8], from: usize, to: usize, n: usize)
    requires { (from + n ≤ length room.old) × (to + n ≤ length room.old) }
    ensures { room.new ≡ paste room.old to (drop from room.old) n }
{
    if from != to {
        room.copy_within(from..from + n, to);
    }
}

// Replaces, in the first `used` bytes of a slice, the `gone` bytes at a place by others, and shifts what stands after them.
// The room is lent, so its used length stands beside it.
pub fn splice(room: &mut [u8], used: usize, at: usize, gone: usize, src: &[u8])
    requires { (at + gone ≤ used) × (used ≤ length room.old) × (used_after used gone src.now ≤ length room.old) }
    ensures { Spliced room.old used at gone src.now room.new }
{
    let tail = at + gone;
    shift(room, tail, at + src.len(), used - tail);
    copy_in(room, at, src);
}
