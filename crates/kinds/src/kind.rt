ghost use Rattle.std.specs.Prelude.{◌≡◌};
ghost use Rattle.keys.specs.Order.{sign};
ghost use Rattle.kinds.specs.Bounds.{bound, bound_tag, TagRead, is_bounded, tie, tie_of, start_order, end_order, bound_order, start_admits, end_admits};

// The tags of the three kinds, where a bound is written as bytes.
pub const UNBOUNDED: u8 = 0x10;

pub const INCLUDED: u8 = 0x11;

pub const EXCLUDED: u8 = 0x12;

// What kind of bound a key makes: Rust's `Bound`, with the key in a slice beside it. The variants stand in the order of
// starts at equal keys.
#[derive(Clone, Copy, PartialEq, Eq, PartialOrd, Ord)]
pub enum Kind {
    Unbounded = 0x10,
    Included = 0x11,
    Excluded = 0x12,
}

impl Kind {
    pub const UNBOUNDED: Kind = Kind::Unbounded;

    // The values by name, as document 01 has them, for callers; code that tells kinds apart names the variants.
    pub fn unbounded() -> Self
        ensures { result ≡ Kind.Unbounded }
    {
        Kind::UNBOUNDED
    }

    pub fn included() -> Self
        ensures { result ≡ Kind.Included }
    {
        Kind::Included
    }

    pub fn excluded() -> Self
        ensures { result ≡ Kind.Excluded }
    {
        Kind::Excluded
    }

    pub fn bounded(self) -> bool
        ensures { result ≡ is_bounded self }
    {
        match self {
            Kind::Unbounded => false,
            Kind::Included | Kind::Excluded => true,
        }
    }

    // Where a start of this kind stands against one of the other at equal keys: a number, so that an end's tie is its
    // negation.
    fn tie(self, other: Kind) -> i8
        ensures { result ≡ sign (tie self other) }
    {
        self.cmp(&other) as i8
    }

    // A number, as `keys::compare` answers. Starts and ends have an order each; what they share is `compare_bound`.
    pub fn compare_start(self, key: &[u8], other: Kind, other_key: &[u8]) -> i8
        ensures { result ≡ sign (start_order (bound self key.now) (bound other other_key.now)) }
    {
        self.compare_bound(key, other, other_key, true)
    }

    // The same of two ends.
    pub fn compare_end(self, key: &[u8], other: Kind, other_key: &[u8]) -> i8
        ensures { result ≡ sign (end_order (bound self key.now) (bound other other_key.now)) }
    {
        self.compare_bound(key, other, other_key, false)
    }

    // Two bounds of one sort, both starts or both ends: the Rust's `cmp_bound`, as a number like its parts.
    fn compare_bound(self, key: &[u8], other: Kind, other_key: &[u8], start: bool) -> i8
        ensures { result ≡ sign (bound_order start (bound self key.now) (bound other other_key.now)) }
    {
        if !self.bounded() || !other.bounded() {
            return self.tie_of(other, start);
        }
        match keys::compare(key, other_key) {
            0 => self.tie_of(other, start),
            order => order,
        }
    }

    // An end's tie is the negated start's tie; the flag is the one that the definition `bound_order` takes.
    fn tie_of(self, other: Kind, start: bool) -> i8
        ensures { result ≡ sign (tie_of start self other) }
    {
        let tie = self.tie(other);
        if start { tie } else { -tie }
    }

    // Whether two keys, the bound's and one that is asked for, stand as this kind has it.
    fn admits(self, low: &[u8], high: &[u8]) -> bool
        ensures { result ≡ start_admits (bound self low.now) high.now }
    {
        match self {
            Kind::Unbounded => true,
            Kind::Included => keys::compare(low, high) <= 0,
            Kind::Excluded => keys::compare(low, high) < 0,
        }
    }

    // Whether a key meets this bound as a start.
    pub fn admits_from(self, bound_key: &[u8], key: &[u8]) -> bool
        ensures { result ≡ start_admits (bound self bound_key.now) key.now }
    {
        self.admits(bound_key, key)
    }

    // Whether a key meets this bound as an end.
    pub fn admits_to(self, bound_key: &[u8], key: &[u8]) -> bool
        ensures { result ≡ end_admits (bound self bound_key.now) key.now }
    {
        self.admits(key, bound_key)
    }
}

// A tag that names no kind.
#[derive(Clone, Copy)]
pub struct UnknownTag(pub u8);

impl TryFrom<u8> for Kind {
    type Error = UnknownTag;

    ghost try_from_gives = { TagRead };

    fn try_from(tag: u8) -> Result<Self, UnknownTag> {
        match tag {
            UNBOUNDED => Ok(Kind::Unbounded),
            INCLUDED => Ok(Kind::Included),
            EXCLUDED => Ok(Kind::Excluded),
            _ => Err(UnknownTag(tag)),
        }
    }
}

impl From<Kind> for u8 {
    ghost from_gives = { λ kind tag. tag ≡ bound_tag kind };

    fn from(kind: Kind) -> Self {
        kind as u8
    }
}
