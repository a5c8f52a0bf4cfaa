// The boundary: each call of the range part under a C name, on numbers and byte slices. An answer is a struct by value
// that begins with the status.
// C takes a bound as a number and a slice, so calls on two ranges have the same eight parameters.
ghost use Rattle.std.specs.Prelude.{◌≡◌};
ghost use Rattle.keys.specs.Order.{order, is_same, starts_with};
ghost use Rattle.kinds.specs.Bounds.{start_order, end_order};
ghost use Rattle.bounds.specs.Ranges.{range_order, not_empty, holds, touches, intersect_of, union_of, is_point};
ghost use Rattle.ranges.specs.Prefixes.{prefix_range, subrange_of};
ghost use Rattle.ranges.specs.Making.{new_of, made_increment, made_range};
ghost use Rattle.stranvek.specs.Boundary.{kind_at, bound_at, range_at, paired, made_keys};
ghost use Rattle.stranvek.specs.Answers.{compared, told, new_range, made_key};

use crate::boundary::{
    Compared, MadeKey, MadeKeys, NewRange, Pair, Told, kind_at, pair_of, range_at,
};
use ranges::bytes_range::BytesRange;

#[unsafe(no_mangle)]
pub extern "C" fn stranvek_compare(a: &[u8], b: &[u8]) -> Compared
    ensures { result ≡ compared (order a.now b.now) }
{
    Compared::from(keys::compare(a, b))
}

#[unsafe(no_mangle)]
pub extern "C" fn stranvek_equal(a: &[u8], b: &[u8]) -> Told
    ensures { result ≡ told (is_same (order a.now b.now)) }
{
    Told::from(keys::equal(a, b))
}

#[unsafe(no_mangle)]
pub extern "C" fn stranvek_starts_with(key: &[u8], prefix: &[u8]) -> Told
    ensures { result ≡ told (starts_with prefix.now key.now) }
{
    Told::from(keys::starts_with(key, prefix))
}

#[unsafe(no_mangle)]
pub extern "C" fn stranvek_compare_start(
    a_kind: u8,
    a_key: &[u8],
    b_kind: u8,
    b_key: &[u8],
) -> Compared
    ensures { result ≡ compared (start_order (bound_at a_kind a_key.now) (bound_at b_kind b_key.now)) }
{
    let a = kind_at(a_kind);
    Compared::from(a.compare_start(a_key, kind_at(b_kind), b_key))
}

#[unsafe(no_mangle)]
pub extern "C" fn stranvek_compare_end(
    a_kind: u8,
    a_key: &[u8],
    b_kind: u8,
    b_key: &[u8],
) -> Compared
    ensures { result ≡ compared (end_order (bound_at a_kind a_key.now) (bound_at b_kind b_key.now)) }
{
    let a = kind_at(a_kind);
    Compared::from(a.compare_end(a_key, kind_at(b_kind), b_key))
}

#[unsafe(no_mangle)]
pub extern "C" fn stranvek_compare_range(
    start_kind: u8,
    start_key: &[u8],
    end_kind: u8,
    end_key: &[u8],
    other_start_kind: u8,
    other_start_key: &[u8],
    other_end_kind: u8,
    other_end_key: &[u8],
) -> Compared
    ensures { result ≡ compared (range_order (range_at start_kind start_key.now end_kind end_key.now) (range_at other_start_kind other_start_key.now other_end_kind other_end_key.now)) }
{
    let a = range_at(start_kind, end_kind);
    let b = range_at(other_start_kind, other_end_kind);
    Compared::from(a.compare(start_key, end_key, b, other_start_key, other_end_key))
}

#[unsafe(no_mangle)]
pub extern "C" fn stranvek_non_empty(
    start_kind: u8,
    start_key: &[u8],
    end_kind: u8,
    end_key: &[u8],
) -> Told
    ensures { result ≡ told (not_empty (range_at start_kind start_key.now end_kind end_key.now)) }
{
    let a = range_at(start_kind, end_kind);
    Told::from(a.non_empty(start_key, end_key))
}

#[unsafe(no_mangle)]
pub extern "C" fn stranvek_contains(
    start_kind: u8,
    start_key: &[u8],
    end_kind: u8,
    end_key: &[u8],
    key: &[u8],
) -> Told
    ensures { result ≡ told (holds (range_at start_kind start_key.now end_kind end_key.now) key.now) }
{
    let a = range_at(start_kind, end_kind);
    Told::from(a.contains(start_key, end_key, key))
}

#[unsafe(no_mangle)]
pub extern "C" fn stranvek_are_adjacent(
    start_kind: u8,
    start_key: &[u8],
    end_kind: u8,
    end_key: &[u8],
    other_start_kind: u8,
    other_start_key: &[u8],
    other_end_kind: u8,
    other_end_key: &[u8],
) -> Told
    ensures { result ≡ told (touches (range_at start_kind start_key.now end_kind end_key.now) (range_at other_start_kind other_start_key.now other_end_kind other_end_key.now)) }
{
    let a = range_at(start_kind, end_kind);
    let b = range_at(other_start_kind, other_end_kind);
    Told::from(a.are_adjacent(end_key, b, other_start_key))
}

#[unsafe(no_mangle)]
pub extern "C" fn stranvek_intersect<'a>(
    start_kind: u8,
    start_key: &'a [u8],
    end_kind: u8,
    end_key: &'a [u8],
    other_start_kind: u8,
    other_start_key: &'a [u8],
    other_end_kind: u8,
    other_end_key: &'a [u8],
) -> Pair
    ensures { result ≡ paired (intersect_of (range_at start_kind start_key.now end_kind end_key.now) (range_at other_start_kind other_start_key.now other_end_kind other_end_key.now)) (kind_at start_kind) (kind_at other_start_kind) (kind_at end_kind) (kind_at other_end_kind) }
{
    let a = range_at(start_kind, end_kind);
    let b = range_at(other_start_kind, other_end_kind);
    pair_of(
        a.intersect(start_key, end_key, b, other_start_key, other_end_key),
        a,
        b,
    )
}

#[unsafe(no_mangle)]
pub extern "C" fn stranvek_union<'a>(
    start_kind: u8,
    start_key: &'a [u8],
    end_kind: u8,
    end_key: &'a [u8],
    other_start_kind: u8,
    other_start_key: &'a [u8],
    other_end_kind: u8,
    other_end_key: &'a [u8],
) -> Pair
    ensures { result ≡ paired (union_of (range_at start_kind start_key.now end_kind end_key.now) (range_at other_start_kind other_start_key.now other_end_kind other_end_key.now)) (kind_at start_kind) (kind_at other_start_kind) (kind_at end_kind) (kind_at other_end_kind) }
{
    let a = range_at(start_kind, end_kind);
    let b = range_at(other_start_kind, other_end_kind);
    pair_of(
        a.union(start_key, end_key, b, other_start_key, other_end_key),
        a,
        b,
    )
}

#[unsafe(no_mangle)]
pub extern "C" fn stranvek_as_point(
    start_kind: u8,
    start_key: &[u8],
    end_kind: u8,
    end_key: &[u8],
) -> Told
    ensures { result ≡ told (is_point (range_at start_kind start_key.now end_kind end_key.now)) }
{
    let a = BytesRange {
        inner: range_at(start_kind, end_kind),
    };
    Told::from(a.as_point(start_key, end_key))
}

#[unsafe(no_mangle)]
pub extern "C" fn stranvek_increment_prefix(prefix: &[u8]) -> MadeKey
    ensures { result ≡ made_key (made_increment prefix.now) }
{
    MadeKey::from(BytesRange::increment_prefix(prefix))
}

#[unsafe(no_mangle)]
pub extern "C" fn stranvek_new_range(
    start_kind: u8,
    start_key: &[u8],
    end_kind: u8,
    end_key: &[u8],
) -> NewRange
    ensures { result ≡ new_range (new_of (range_at start_kind start_key.now end_kind end_key.now)) (kind_at start_kind) (kind_at end_kind) }
{
    NewRange::from(BytesRange::new(kind_at(start_kind), start_key, kind_at(end_kind), end_key))
}

#[unsafe(no_mangle)]
pub extern "C" fn stranvek_from_prefix(prefix: &[u8]) -> MadeKeys
    ensures { result ≡ made_keys (made_range (prefix_range prefix.now)) }
{
    MadeKeys::from(BytesRange::from_prefix(prefix))
}

#[unsafe(no_mangle)]
pub extern "C" fn stranvek_from_prefix_and_subrange(
    prefix: &[u8],
    start_kind: u8,
    start_key: &[u8],
    end_kind: u8,
    end_key: &[u8],
) -> MadeKeys
    ensures { result ≡ made_keys (made_range (subrange_of prefix.now (range_at start_kind start_key.now end_kind end_key.now))) }
{
    let subrange = range_at(start_kind, end_kind);
    MadeKeys::from(BytesRange::from_prefix_and_subrange(prefix, subrange, start_key, end_key))
}
