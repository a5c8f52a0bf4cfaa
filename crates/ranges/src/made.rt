// Made keys: document 01's "A key that must be made (increment, joined) comes back by value".
ghost use Rattle.std.specs.Prelude.{◌≡◌, [], ◌++◌, ◌+◌, ◌≤◌, length, take};
ghost use Rattle.std.proofs.Math.Seq.{paste};
ghost use Rattle.keys.specs.Limit.{key_limit};
ghost use Rattle.kinds.specs.Bounds.{bound, unbounded};
ghost use Rattle.ranges.specs.Made.{Sized, refusal_status, padded, made_of, made_bound};

use keys::KEY_LIMIT;
use kinds::kind::Kind;

// Why a range or a key was not made: document 01's statuses 4 and 5.
#[derive(Clone, Copy)]
pub enum RangeError {
    LongKey = 4,
    EmptyRange = 5,
}

impl From<RangeError> for u8 {
    ghost from_gives = { λ error status. status ≡ refusal_status error };

    fn from(error: RangeError) -> Self {
        error as u8
    }
}

// A bound whose key was made: the first len of the bytes, with zeros after them as the host gets them, and no heap.
#[derive(Clone, Copy)]
pub struct MadeBound {
    pub kind: Kind,
    pub len: usize,
    pub bytes: [u8; KEY_LIMIT],
}

// A made key of no bytes.
pub fn zeros() -> [u8; KEY_LIMIT]
    ensures { result ≡ padded [] }
{
    [0u8; KEY_LIMIT]
}

impl MadeBound {
    // No key: unbounded, with length 0.
    pub fn unbounded() -> Self
        ensures { result ≡ made_of unbounded }
    {
        MadeBound {
            kind: Kind::UNBOUNDED,
            len: 0,
            bytes: zeros(),
        }
    }

    pub fn key(&self) -> &[u8]
        requires { Sized self.now }
        ensures { result.now ≡ take self.now.len self.now.bytes }
    {
        &self.bytes[..self.len]
    }
}

// The bytes with those of src put at a place.
pub fn with_bytes(bytes: [u8; KEY_LIMIT], at: usize, src: &[u8]) -> [u8; KEY_LIMIT]
    requires { at + length src.now ≤ key_limit }
    ensures { result ≡ paste bytes at src.now (length src.now) }
{
    let mut out = bytes;
    out[at..at + src.len()].copy_from_slice(src);
    out
}

// The bound of a key that is a prefix and what stands after it.
pub fn joined(kind: Kind, prefix: &[u8], suffix: &[u8]) -> Result<MadeBound, RangeError>
    ensures { result ≡ made_bound (bound kind (prefix.now ++ suffix.now)) }
{
    if !kind.bounded() {
        return Ok(MadeBound::unbounded());
    }
    if KEY_LIMIT < prefix.len() || KEY_LIMIT - prefix.len() < suffix.len() {
        return Err(RangeError::LongKey);
    }
    let front = with_bytes(zeros(), 0, prefix);
    Ok(MadeBound {
        kind,
        len: prefix.len() + suffix.len(),
        bytes: with_bytes(front, prefix.len(), suffix),
    })
}
