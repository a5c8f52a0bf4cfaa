// Byte order. Every order of two keys is `compare`'s.
#![tactic(auto)]

ghost use Rattle.std.specs.Prelude.{◌≡◌};
ghost use Rattle.keys.specs.Order.{order, sign, is_same, starts_with};

// A stored key has at most this many bytes.
pub const KEY_LIMIT: usize = 512;

// So many bytes `compare` looks at one by one.
const NEAR: usize = 8;

// Where a stands against b: -1 before it, 0 at it, 1 after it; no `Ordering`, since the number crosses the boundary as it is.
#[inline(always)]
pub fn compare(a: &[u8], b: &[u8]) -> i8
    ensures { result ≡ sign (order a.now b.now) }
{
    // Most keys differ in one of their first bytes, where a scan of both would not pay.
    for i in 0..a.len().min(NEAR) {
        if b.len() <= i {
            return 1;
        }
        if a[i] < b[i] {
            return -1;
        }
        if b[i] < a[i] {
            return 1;
        }
    }
    // The first key has ended, and the second begins with it.
    if a.len() <= NEAR {
        return if a.len() < b.len() { -1 } else { 0 };
    }
    compare_on(a, b)
}

// The same by std's scan, out of the way of what calls `compare`.
#[cold]
#[inline(never)]
fn compare_on(a: &[u8], b: &[u8]) -> i8
    ensures { result ≡ sign (order a.now b.now) }
{
    a.cmp(b) as i8
}

pub fn equal(a: &[u8], b: &[u8]) -> bool
    ensures { result ≡ is_same (order a.now b.now) }
{
    a == b
}

pub fn starts_with(key: &[u8], prefix: &[u8]) -> bool
    ensures { result ≡ starts_with prefix.now key.now }
{
    prefix.len() <= key.len() && prefix == &key[..prefix.len()]
}
