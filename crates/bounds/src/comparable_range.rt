ghost use Rattle.std.specs.Prelude.{◌≡◌};
ghost use Rattle.keys.specs.Order.{sign};
ghost use Rattle.kinds.specs.Bounds.{bound};
ghost use Rattle.bounds.specs.Ranges.{range, range_of, range_order, holds, not_empty, touches_pair, intersect_of, join_of, union_of};
ghost use Rattle.bounds.specs.Sides.{sided, max_start, min_end};

use crate::sides::{Side, Sides, max_end, max_start, min_end};
use kinds::kind::Kind;

// A pair of bounds: the kinds. The keys are no fields: they are lent beside it, and one is handed back as a part of its
// slice.
#[derive(Clone, Copy)]
pub struct ComparableRange {
    pub start: Kind,
    pub end: Kind,
}

impl ComparableRange {
    pub const ALL: ComparableRange = ComparableRange {
        start: Kind::Unbounded,
        end: Kind::Unbounded,
    };

    pub fn new(start: Kind, end: Kind) -> Self
        ensures { (result.start ≡ start) × (result.end ≡ end) }
    {
        ComparableRange { start, end }
    }

    // The derived order, by start and then by end: a number, as each bound's.
    #[inline(always)]
    pub fn compare(
        self,
        start_key: &[u8],
        end_key: &[u8],
        other: ComparableRange,
        other_start_key: &[u8],
        other_end_key: &[u8],
    ) -> i8
        ensures { result ≡ sign (range_order (range_of self start_key.now end_key.now) (range_of other other_start_key.now other_end_key.now)) }
    {
        match self
            .start
            .compare_start(start_key, other.start, other_start_key)
        {
            0 => self.end.compare_end(end_key, other.end, other_end_key),
            order => order,
        }
    }

    pub fn intersect<'a>(
        self,
        start_key: &'a [u8],
        end_key: &'a [u8],
        other: ComparableRange,
        other_start_key: &'a [u8],
        other_end_key: &'a [u8],
    ) -> Option<Sides>
        ensures { result ≡ intersect_of (range_of self start_key.now end_key.now) (range_of other other_start_key.now other_end_key.now) }
    {
        let start = max_start(self.start, start_key, other.start, other_start_key);
        let end = min_end(self.end, end_key, other.end, other_end_key);
        let range = ComparableRange::new(
            start.pick(self.start, other.start),
            end.pick(self.end, other.end),
        );
        let non_empty = range.non_empty(
            start.pick(start_key, other_start_key),
            end.pick(end_key, other_end_key),
        );
        non_empty.then_some(Sides { start, end })
    }

    // The greater start's key, handed back as a part of whichever slice it came in: for callers, since `intersect` answers
    // sides and would compare the keys twice.
    pub fn intersect_start<'a>(
        self,
        start_key: &'a [u8],
        other: ComparableRange,
        other_start_key: &'a [u8],
    ) -> &'a [u8]
        ensures { result.now ≡ sided (max_start (bound self.start start_key.now) (bound other.start other_start_key.now)) start_key.now other_start_key.now }
    {
        let side = max_start(self.start, start_key, other.start, other_start_key);
        side.pick(start_key, other_start_key)
    }

    // The lesser end's key, likewise: a function of its own, since a caller lends the ends' keys alone.
    pub fn intersect_end<'a>(
        self,
        end_key: &'a [u8],
        other: ComparableRange,
        other_end_key: &'a [u8],
    ) -> &'a [u8]
        ensures { result.now ≡ sided (min_end (bound self.end end_key.now) (bound other.end other_end_key.now)) end_key.now other_end_key.now }
    {
        let side = min_end(self.end, end_key, other.end, other_end_key);
        side.pick(end_key, other_end_key)
    }

    pub fn union<'a>(
        self,
        start_key: &'a [u8],
        end_key: &'a [u8],
        other: ComparableRange,
        other_start_key: &'a [u8],
        other_end_key: &'a [u8],
    ) -> Option<Sides>
        ensures { result ≡ union_of (range_of self start_key.now end_key.now) (range_of other other_start_key.now other_end_key.now) }
    {
        if self.compare(start_key, end_key, other, other_start_key, other_end_key) < 0 {
            return self.join(start_key, end_key, other, other_start_key, other_end_key);
        }
        other
            .join(other_start_key, other_end_key, self, start_key, end_key)
            .map(Sides::swapped)
    }

    // The union of a first range with a second one.
    fn join<'a>(
        self,
        start_key: &'a [u8],
        end_key: &'a [u8],
        other: ComparableRange,
        other_start_key: &'a [u8],
        other_end_key: &'a [u8],
    ) -> Option<Sides>
        ensures { result ≡ join_of (range_of self start_key.now end_key.now) (range_of other other_start_key.now other_end_key.now) }
    {
        let end = max_end(self.end, end_key, other.end, other_end_key);
        let meets = self
            .intersect(start_key, end_key, other, other_start_key, other_end_key)
            .is_some()
            || self.are_adjacent(end_key, other, other_start_key);
        meets.then_some(Sides {
            start: Side::First,
            end,
        })
    }

    // Whether this range's end and the other's start hold equal keys, one included and one excluded.
    pub fn are_adjacent(
        self,
        end_key: &[u8],
        other: ComparableRange,
        other_start_key: &[u8],
    ) -> bool
        ensures { result ≡ touches_pair (bound self.end end_key.now) (bound other.start other_start_key.now) }
    {
        match (self.end, other.start) {
            (Kind::Included, Kind::Excluded) | (Kind::Excluded, Kind::Included) => {
                keys::equal(end_key, other_start_key)
            }
            _ => false,
        }
    }

    pub fn non_empty(self, start_key: &[u8], end_key: &[u8]) -> bool
        ensures { result ≡ not_empty (range_of self start_key.now end_key.now) }
    {
        match (self.start, self.end) {
            (Kind::Unbounded, _) | (_, Kind::Unbounded) => true,
            (Kind::Included, Kind::Included) => keys::compare(start_key, end_key) <= 0,
            _ => keys::compare(start_key, end_key) < 0,
        }
    }

    // Rust's `RangeBounds::contains`.
    pub fn contains(self, start_key: &[u8], end_key: &[u8], key: &[u8]) -> bool
        ensures { result ≡ holds (range_of self start_key.now end_key.now) key.now }
    {
        self.start.admits_from(start_key, key) && self.end.admits_to(end_key, key)
    }
}
