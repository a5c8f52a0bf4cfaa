// The walk over records that stand one after another.
ghost use Rattle.std.specs.Prelude.{◌≡◌, ◌+◌, ◌≤◌, length};
ghost use Rattle.room.specs.Chains.{Chain, Linked, chain_of, list_of};
ghost use Rattle.room.specs.Walks.{Walks, Apart};

use crate::tally::Tally;
use layout::COUNT;

// Records of which so many stand one after another: how one ends, and which may follow which.
pub trait Chained {
    ghost chain: { Chain };

    // Where the one at a place ends. A struct of a room and a place in it would be made anew at each step.
    fn one_end(room: &[u8], at: usize) -> Option<Tally>
        requires { at ≤ length room.now }
        ensures { Walks chain.one room.now at result };

    // Whether the one from e up to next may follow the one from p up to e; none is before it if p is e.
    fn may_follow(room: &[u8], p: usize, e: usize, next: usize) -> bool
        requires { Apart chain.least p e × ((e + chain.least ≤ next) × (next ≤ length room.now)) }
        ensures { result ≡ chain.follows room.now p e next };

    // The bytes tell which may follow which.
    ghost linked: { Linked chain };
}

// Where n of them end, each such that it may follow the one before. In line, as is the list's: a call of it would move a tally
// for each entry.
#[inline(always)]
pub fn chain_end<C: Chained>(room: &[u8], at: usize, n: usize) -> Option<Tally>
    requires { at ≤ length room.now }
    ensures { Walks (chain_of C.chain n) room.now at result }
{
    let mut t = Tally::start(at);
    let mut p = at;
    for _ in 0..n {
        let u = C::one_end(room, t.end)?;
        if !C::may_follow(room, p, t.end, u.end) {
            return None;
        }
        p = t.end;
        t = t.joined(u);
    }
    Some(t)
}

// Where a list of them ends: so many behind their count.
#[inline(always)]
pub fn list_end<C: Chained>(room: &[u8], at: usize) -> Option<Tally>
    requires { at ≤ length room.now }
    ensures { Walks (list_of C.chain) room.now at result }
{
    if room.len() - at < COUNT {
        return None;
    }
    let n = codec::numbers::read_two(room, at);
    chain_end::<C>(room, at + COUNT, n)
}
