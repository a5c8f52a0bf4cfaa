// Numbers in bytes, the highest byte first.
ghost use Rattle.std.specs.Prelude.{◌≡◌, ◌+◌, ◌≤◌, length};
ghost use Rattle.std.proofs.Math.Seq.{paste};
ghost use Rattle.codec.specs.Formats.{number};
ghost use Rattle.codec.specs.Stands.{Stands};

// A number is made of eight bytes at most.
const WIDTH: usize = 8;

fn read<const N: usize>(bytes: &[u8], at: usize) -> u64
    requires { (N ≤ 8) × (at + N ≤ length bytes.now) }
    ensures { Stands (number N) bytes.now at result (at + N) }
{
    let mut all = [0; WIDTH];
    all[WIDTH - N..].copy_from_slice(&bytes[at..at + N]);
    u64::from_be_bytes(all)
}

// Writes the lowest N bytes of a number.
fn write<const N: usize>(bytes: &mut [u8], at: usize, x: u64)
    requires { (N ≤ 8) × (at + N ≤ length bytes.old) }
    ensures { bytes.new ≡ paste bytes.old at ((number N).write x) N }
{
    bytes[at..at + N].copy_from_slice(&x.to_be_bytes()[WIDTH - N..]);
}

// The number in the two bytes at a place.
pub fn read_two(bytes: &[u8], at: usize) -> usize
    requires { at + 2 ≤ length bytes.now }
    ensures { Stands (number 2) bytes.now at result (at + 2) }
{
    read::<2>(bytes, at) as usize
}

// The number in the eight bytes at a place.
pub fn read_eight(bytes: &[u8], at: usize) -> u64
    requires { at + 8 ≤ length bytes.now }
    ensures { Stands (number 8) bytes.now at result (at + 8) }
{
    read::<8>(bytes, at)
}

// Writes the lowest two bytes of a number at a place.
pub fn write_two(bytes: &mut [u8], at: usize, x: usize)
    requires { at + 2 ≤ length bytes.old }
    ensures { bytes.new ≡ paste bytes.old at ((number 2).write x) 2 }
{
    write::<2>(bytes, at, x as u64);
}

// Writes the eight bytes of a number at a place.
pub fn write_eight(bytes: &mut [u8], at: usize, x: u64)
    requires { at + 8 ≤ length bytes.old }
    ensures { bytes.new ≡ paste bytes.old at ((number 8).write x) 8 }
{
    write::<8>(bytes, at, x);
}
