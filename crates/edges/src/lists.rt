// Key lists and bounds, put into a lent run of bytes.
ghost use Rattle.std.specs.Prelude.{◌≡◌, ◌+◌, ◌≤◌, length};

use codec::numbers::write_two;
use fields::{FIELD_HEAD, KEY};

// A field's tag and length, with a key's number of two bytes after them.
const NUMBERED: usize = 5;

// Puts a field's tag and length, and tells where its payload ends.
pub fn put_field(bytes: &mut [u8], at: usize, tag: u8, size: usize) -> usize
    requires { at + 3 + size ≤ length bytes.old }
    ensures { result ≡ at + 3 + size }
{
    write_two(bytes, at + 1, size);
    bytes[at] = tag;
    at + FIELD_HEAD + size
}

// A key is its number in two bytes and then what stands there, cut to its size.
fn put_key(list: &mut [u8], at: usize, number: usize, size: usize) -> usize
    requires { at + 5 + size ≤ length list.old }
    ensures { result ≡ at + 3 + size }
{
    write_two(list, at + FIELD_HEAD, number);
    put_field(list, at, KEY, size)
}

// Puts keys of one size, numbered on from the first, as many as there is place for; tells where they end.
pub fn put_keys(list: &mut [u8], first: usize, count: usize, size: usize) -> usize
    requires { (first + count ≤ 65536) × (size ≤ 65535) }
    ensures { result ≤ length list.old }
{
    let mut at = 0;
    for number in first..first + count {
        if list.len() - at < NUMBERED + size {
            break;
        }
        at = put_key(list, at, number, size);
    }
    at
}
