ghost use Rattle.std.specs.Prelude.{◌≡◌, ◌≤◌, ◌<◌, ◌-◌, length, get_or};
ghost use Rattle.keys.specs.Limit.{key_limit};
ghost use Rattle.kinds.specs.Bounds.{bound};
ghost use Rattle.bounds.specs.Ranges.{range, range_of, holds, is_point};
ghost use Rattle.ranges.specs.Prefixes.{increment, Raises, unless_zero, end_at, prefix_range, subrange_of, sub_start, sub_end};
ghost use Rattle.ranges.specs.Made.{too_long, made_of, made_bound};
ghost use Rattle.ranges.specs.Making.{new_of, made_increment, made_range};

use crate::made::{MadeBound, RangeError, joined, with_bytes, zeros};
use bounds::comparable_range::ComparableRange;
use keys::KEY_LIMIT;
use kinds::kind::Kind;

// A range whose keys were made.
#[derive(Clone, Copy)]
pub struct MadeRange {
    pub start: MadeBound,
    pub end: MadeBound,
}

// The increment of a prefix whose last byte is not ff.
fn raised(prefix: &[u8]) -> MadeBound
    requires { (length prefix.now ≤ key_limit) × (0 < length prefix.now) × (get_or prefix.now (length prefix.now - 1) 0 < 255) }
    ensures { result ≡ made_of (end_at (increment prefix.now)) }
{
    let mut bytes = with_bytes(zeros(), 0, prefix);
    bytes[prefix.len() - 1] += 1;
    MadeBound {
        kind: Kind::Excluded,
        len: prefix.len(),
        bytes,
    }
}

// How long the increment of a prefix is: that of a prefix whose last byte is ff is the increment of what stands before
// it; zero where there is none. It answers a number, since a made key in each frame of the recursion would take much stack, and no
// `Option` of one, since the machine code of that recursion would take some for each byte.
fn increment_len(prefix: &[u8]) -> usize
    ensures { Raises prefix.now (unless_zero result) }
{
    match prefix {
        [] => 0,
        [front @ .., 255] => increment_len(front),
        _ => prefix.len(),
    }
}

fn increment(prefix: &[u8]) -> MadeBound
    requires { length prefix.now ≤ key_limit }
    ensures { result ≡ made_of (end_at (increment prefix.now)) }
{
    match increment_len(prefix) {
        0 => MadeBound::unbounded(),
        n => raised(&prefix[..n]),
    }
}

// The start of a prefix's subrange: unbounded is from the bare prefix on, which everything has if it is empty.
#[inline(always)]
fn start_of(prefix: &[u8], start: Kind, suffix: &[u8]) -> Result<MadeBound, RangeError>
    ensures { result ≡ made_bound (sub_start prefix.now (bound start suffix.now)) }
{
    if start.bounded() {
        return joined(start, prefix, suffix);
    }
    if prefix.is_empty() {
        return Ok(MadeBound::unbounded());
    }
    joined(Kind::Included, prefix, &[])
}

// The end of a prefix's subrange: unbounded is up to the prefix's increment.
#[inline(always)]
fn end_of(prefix: &[u8], end: Kind, suffix: &[u8]) -> Result<MadeBound, RangeError>
    requires { length prefix.now ≤ key_limit }
    ensures { result ≡ made_bound (sub_end prefix.now (bound end suffix.now)) }
{
    if end.bounded() {
        return joined(end, prefix, suffix);
    }
    Ok(increment(prefix))
}

fn too_long(kind: Kind, key: &[u8]) -> bool
    ensures { result ≡ too_long (bound kind key.now) }
{
    kind.bounded() && KEY_LIMIT < key.len()
}

// A range of keys: a pair of bounds, with the keys in slices beside it.
#[derive(Clone, Copy)]
pub struct BytesRange {
    pub inner: ComparableRange,
}

impl BytesRange {
    pub const ALL: BytesRange = BytesRange {
        inner: ComparableRange::ALL,
    };

    // The range of a pair of bounds, or why it is none: the source's assertion, with the added limit before it.
    #[inline(always)]
    pub fn new(start: Kind, start_key: &[u8], end: Kind, end_key: &[u8]) -> Result<Self, RangeError>
        ensures { result ≡ new_of (range (bound start start_key.now) (bound end end_key.now)) }
    {
        if too_long(start, start_key) || too_long(end, end_key) {
            return Err(RangeError::LongKey);
        }
        let inner = ComparableRange::new(start, end);
        if !inner.non_empty(start_key, end_key) {
            return Err(RangeError::EmptyRange);
        }
        Ok(BytesRange { inner })
    }

    // The whole key space by name, as document 01 has it, for callers.
    pub fn unbounded() -> Self
        ensures { (result.inner.start ≡ Kind.Unbounded) × (result.inner.end ≡ Kind.Unbounded) }
    {
        BytesRange::ALL
    }

    // The range of all keys that start with a prefix: the whole key space within it.
    #[inline(always)]
    pub fn from_prefix(prefix: &[u8]) -> Result<MadeRange, RangeError>
        ensures { result ≡ made_range (prefix_range prefix.now) }
    {
        BytesRange::from_prefix_and_subrange(prefix, ComparableRange::ALL, &[], &[])
    }

    // The keys that start with a prefix and go on with a suffix of the subrange.
    #[inline(always)]
    pub fn from_prefix_and_subrange(
        prefix: &[u8],
        subrange: ComparableRange,
        start_suffix: &[u8],
        end_suffix: &[u8],
    ) -> Result<MadeRange, RangeError>
        ensures { result ≡ made_range (subrange_of prefix.now (range_of subrange start_suffix.now end_suffix.now)) }
    {
        if KEY_LIMIT < prefix.len() {
            return Err(RangeError::LongKey);
        }
        let start = match start_of(prefix, subrange.start, start_suffix) {
            Ok(start) => start,
            Err(error) => return Err(error),
        };
        let end = match end_of(prefix, subrange.end, end_suffix) {
            Ok(end) => end,
            Err(error) => return Err(error),
        };
        // The range is put together first, so that what was made is moved once.
        let range = MadeRange { start, end };
        let MadeRange { start, end } = &range;
        BytesRange::new(start.kind, start.key(), end.kind, end.key())?;
        Ok(range)
    }

    // The smallest byte string above all that start with a prefix, as an excluded end; none is unbounded.
    pub fn increment_prefix(prefix: &[u8]) -> Result<MadeBound, RangeError>
        ensures { result ≡ made_increment prefix.now }
    {
        match prefix.len() {
            0..=KEY_LIMIT => Ok(increment(prefix)),
            _ => Err(RangeError::LongKey),
        }
    }

    // Rust's `RangeBounds::contains`, for callers.
    pub fn contains(self, start_key: &[u8], end_key: &[u8], key: &[u8]) -> bool
        ensures { result ≡ holds (range_of self.inner start_key.now end_key.now) key.now }
    {
        self.inner.contains(start_key, end_key, key)
    }

    // Whether the range is a point, which is then its start's key.
    pub fn as_point(self, start_key: &[u8], end_key: &[u8]) -> bool
        ensures { result ≡ is_point (range_of self.inner start_key.now end_key.now) }
    {
        match (self.inner.start, self.inner.end) {
            (Kind::Included, Kind::Included) => keys::equal(start_key, end_key),
            _ => false,
        }
    }
}
