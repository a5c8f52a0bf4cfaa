// Sides: which of two ranges gives a start or an end, and what intersect and union answer by it.
ghost use Rattle.std.specs.Prelude.{◌≡◌, cond, int_lt, pos};
ghost use Rattle.kinds.specs.Bounds.{bound};
ghost use Rattle.bounds.specs.Sides.{sided, other_side, max_start, min_end, max_end, swap_sides};

use kinds::kind::Kind;

// Which of two ranges a part comes from. A side's number at the boundary is its place here.
#[derive(Clone, Copy)]
pub enum Side {
    First,
    Second,
}

impl Side {
    pub fn other(self) -> Self
        ensures { result ≡ other_side self }
    {
        match self {
            Side::First => Side::Second,
            Side::Second => Side::First,
        }
    }

    // One of two by the side that it comes from; a key is handed back as a part of whichever slice it came in.
    pub fn pick<T: Copy>(self, first: T, second: T) -> T
        ensures { result ≡ sided self first second }
    {
        match self {
            Side::First => first,
            Side::Second => second,
        }
    }
}

// The greater of two by the first's order against the second: of equals the second.
fn greater(order: i8) -> Side
    ensures { result ≡ cond (int_lt (pos 0) order) Side.First Side.Second }
{
    if 0 < order { Side::First } else { Side::Second }
}

// Rust's `max` of two starts: of equals the second.
pub fn max_start(a: Kind, a_key: &[u8], b: Kind, b_key: &[u8]) -> Side
    ensures { result ≡ max_start (bound a a_key.now) (bound b b_key.now) }
{
    greater(a.compare_start(a_key, b, b_key))
}

// Rust's `min` of two ends: of equals the first.
pub fn min_end(a: Kind, a_key: &[u8], b: Kind, b_key: &[u8]) -> Side
    ensures { result ≡ min_end (bound a a_key.now) (bound b b_key.now) }
{
    max_end(a, a_key, b, b_key).other()
}

// Rust's `max` of two ends: of equals the second.
pub fn max_end(a: Kind, a_key: &[u8], b: Kind, b_key: &[u8]) -> Side
    ensures { result ≡ max_end (bound a a_key.now) (bound b b_key.now) }
{
    greater(a.compare_end(a_key, b, b_key))
}

// What intersect and union answer: which of the two ranges gives the start and which the end.
#[derive(Clone, Copy)]
pub struct Sides {
    pub start: Side,
    pub end: Side,
}

impl Sides {
    // The same answer with the two ranges named the other way round.
    pub fn swapped(self) -> Self
        ensures { result ≡ swap_sides self }
    {
        Sides {
            start: self.start.other(),
            end: self.end.other(),
        }
    }
}
