// What crosses the boundary, beside its calls: the structs that the host reads, and numbers for kinds, sides and statuses.
ghost use Rattle.std.specs.Prelude.{◌≡◌};
ghost use Rattle.stranvek.specs.Boundary.{kind_at, kinds_at, paired, key, made_keys};
ghost use Rattle.stranvek.specs.Answers.{comparing, told, ranged, made_key};

use bounds::comparable_range::ComparableRange;
use bounds::sides::Sides;
use keys::KEY_LIMIT;
use kinds::kind::{Kind, UNBOUNDED};
use ranges::bytes_range::{BytesRange, MadeRange};
use ranges::made::{MadeBound, RangeError};

// An order as the host reads it; the status is always 0.
#[repr(C)]
#[derive(Clone, Copy)]
pub struct Compared {
    pub status: u8,
    pub order: i8,
}

impl From<i8> for Compared {
    ghost from_gives = { λ order answer. answer ≡ comparing order };

    fn from(order: i8) -> Self {
        Compared { status: 0, order }
    }
}

// A yes or no as the host reads it; the status is always 0.
#[repr(C)]
#[derive(Clone, Copy)]
pub struct Told {
    pub status: u8,
    pub holds: bool,
}

impl From<bool> for Told {
    ghost from_gives = { λ holds answer. answer ≡ told holds };

    fn from(holds: bool) -> Self {
        Told { status: 0, holds }
    }
}

// Two sides as the host reads them: C has no `Option`, so `given` says whether the rest counts.
#[repr(C)]
#[derive(Clone, Copy)]
pub struct Pair {
    pub status: u8,
    pub given: bool,
    pub start_kind: u8,
    pub start_side: u8,
    pub end_kind: u8,
    pub end_side: u8,
}

// A range or its refusal as the host reads it: C has no `Result`, so the status says which.
#[repr(C)]
#[derive(Clone, Copy)]
pub struct NewRange {
    pub status: u8,
    pub start_kind: u8,
    pub end_kind: u8,
}

impl From<Result<BytesRange, RangeError>> for NewRange {
    ghost from_gives = { λ made answer. answer ≡ ranged made };

    fn from(made: Result<BytesRange, RangeError>) -> Self {
        match made {
            Ok(range) => NewRange {
                status: 0,
                start_kind: u8::from(range.inner.start),
                end_kind: u8::from(range.inner.end),
            },
            Err(error) => NewRange {
                status: u8::from(error),
                start_kind: UNBOUNDED,
                end_kind: UNBOUNDED,
            },
        }
    }
}

// A made bound as the host reads it, with zeros after the key.
#[repr(C)]
#[derive(Clone, Copy)]
pub struct Key {
    pub kind: u8,
    pub len: usize,
    pub bytes: [u8; KEY_LIMIT],
}

impl From<MadeBound> for Key {
    ghost from_gives = { λ made answer. answer ≡ key made };

    fn from(made: MadeBound) -> Self {
        let MadeBound { kind, len, bytes } = made;
        Key {
            kind: u8::from(kind),
            len,
            bytes,
        }
    }
}

// A made bound or its refusal, told by the status.
#[repr(C)]
#[derive(Clone, Copy)]
pub struct MadeKey {
    pub status: u8,
    pub key: Key,
}

impl From<Result<MadeBound, RangeError>> for MadeKey {
    ghost from_gives = { λ made answer. answer ≡ made_key made };

    fn from(made: Result<MadeBound, RangeError>) -> Self {
        match made {
            Ok(bound) => MadeKey {
                status: 0,
                key: Key::from(bound),
            },
            Err(error) => MadeKey {
                status: u8::from(error),
                key: Key::from(MadeBound::unbounded()),
            },
        }
    }
}

// Two made bounds or their refusal, told by the status.
#[repr(C)]
#[derive(Clone, Copy)]
pub struct MadeKeys {
    pub status: u8,
    pub start: Key,
    pub end: Key,
}

impl From<Result<MadeRange, RangeError>> for MadeKeys {
    ghost from_gives = { λ made answer. answer ≡ made_keys made };

    fn from(made: Result<MadeRange, RangeError>) -> Self {
        // A return of its own for what is refused, so that what was made is moved once less.
        let MadeRange { start, end } = match made {
            Ok(range) => range,
            Err(error) => {
                let nothing = Key::from(MadeBound::unbounded());
                return MadeKeys {
                    status: u8::from(error),
                    start: nothing,
                    end: nothing,
                };
            }
        };
        MadeKeys {
            status: 0,
            start: Key::from(start),
            end: Key::from(end),
        }
    }
}

// A number that names no kind is read as unbounded, the widest: a wrong number can only add keys to a range.
pub fn kind_at(number: u8) -> Kind
    ensures { result ≡ kind_at number }
{
    Kind::try_from(number).unwrap_or(Kind::UNBOUNDED)
}

pub fn range_at(start: u8, end: u8) -> ComparableRange
    ensures { result ≡ kinds_at start end }
{
    ComparableRange::new(kind_at(start), kind_at(end))
}

// Two sides as the host reads them, each with its bound's kind: a function, since the kinds are no part of the sides.
pub fn pair_of(sides: Option<Sides>, a: ComparableRange, b: ComparableRange) -> Pair
    ensures { result ≡ paired sides a.start b.start a.end b.end }
{
    match sides {
        Some(Sides { start, end }) => Pair {
            status: 0,
            given: true,
            start_kind: u8::from(start.pick(a.start, b.start)),
            start_side: start as u8,
            end_kind: u8::from(end.pick(a.end, b.end)),
            end_side: end as u8,
        },
        None => Pair {
            status: 0,
            given: false,
            start_kind: UNBOUNDED,
            start_side: 0,
            end_kind: UNBOUNDED,
            end_side: 0,
        },
    }
}
