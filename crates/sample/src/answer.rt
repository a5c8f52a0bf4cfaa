// The library's answer to each query, as a line.
use crate::field::{Bound, Range};
use crate::query::Query;
use crate::text::Hex;
use bounds::sides::Sides;
use fields::KEY;
use ranges::bytes_range::{BytesRange, MadeRange};
use ranges::made::{MadeBound, RangeError};
use std::io;
use std::io::Stdout;

pub fn answer(out: &Stdout, query: Query<'_>) -> io::Result<()> {
    match query {
        Query::Compare(a, b) => put_order(out, keys::compare(a, b)),
        Query::Equal(a, b) => put_test(out, keys::equal(a, b)),
        Query::StartsWith(a, b) => put_test(out, keys::starts_with(a, b)),
        Query::CompareStart(a, b) => put_order(out, a.kind.compare_start(a.key, b.kind, b.key)),
        Query::CompareEnd(a, b) => put_order(out, a.kind.compare_end(a.key, b.kind, b.key)),
        Query::CompareRange(r, s) => put_order(
            out,
            r.kinds()
                .compare(r.start.key, r.end.key, s.kinds(), s.start.key, s.end.key),
        ),
        Query::NonEmpty(r) => put_test(out, r.kinds().non_empty(r.start.key, r.end.key)),
        Query::Contains(r, key) => put_test(out, r.kinds().contains(r.start.key, r.end.key, key)),
        Query::AreAdjacent(r, s) => {
            put_test(
                out,
                r.kinds().are_adjacent(r.end.key, s.kinds(), s.start.key),
            )
        }
        Query::Intersect(r, s) => put_combined(
            out,
            r.kinds()
                .intersect(r.start.key, r.end.key, s.kinds(), s.start.key, s.end.key),
            r,
            s,
        ),
        Query::Union(r, s) => put_combined(
            out,
            r.kinds()
                .union(r.start.key, r.end.key, s.kinds(), s.start.key, s.end.key),
            r,
            s,
        ),
        Query::AsPoint(r) => put_point(out, r),
        Query::Increment(prefix) => put_made(out, BytesRange::increment_prefix(prefix)),
        Query::New(r) => put_new(out, r),
        Query::FromPrefix(prefix) => put_made_range(out, BytesRange::from_prefix(prefix)),
        Query::FromPrefixAndSubrange(prefix, r) => put_made_range(
            out,
            BytesRange::from_prefix_and_subrange(prefix, r.kinds(), r.start.key, r.end.key),
        ),
    }
}

fn put_order(out: &Stdout, order: i8) -> io::Result<()> {
    println!(out; "0 {order}")
}

fn put_test(out: &Stdout, holds: bool) -> io::Result<()> {
    println!(out; "0 {}", u8::from(holds))
}

fn put_combined<'a>(
    out: &Stdout,
    sides: Option<Sides>,
    r: Range<'a>,
    s: Range<'a>,
) -> io::Result<()> {
    match sides {
        Some(Sides { start, end }) => {
            println!(out;
                "0 {} {}",
                start.pick(r.start, s.start),
                end.pick(r.end, s.end)
            )
        }
        None => println!(out; "0 -"),
    }
}

fn put_point(out: &Stdout, r: Range<'_>) -> io::Result<()> {
    let range = BytesRange { inner: r.kinds() };
    if range.as_point(r.start.key, r.end.key) {
        println!(out; "0 {KEY:02x}:{}", Hex(r.start.key))
    } else {
        println!(out; "0 -")
    }
}

// A refusal is the whole line.
fn put_refusal(out: &Stdout, error: RangeError) -> io::Result<()> {
    println!(out; "{} -", u8::from(error))
}

fn put_new(out: &Stdout, r: Range<'_>) -> io::Result<()> {
    match BytesRange::new(r.start.kind, r.start.key, r.end.kind, r.end.key) {
        Ok(_) => println!(out; "0 {r}"),
        Err(error) => put_refusal(out, error),
    }
}

fn put_made(out: &Stdout, made: Result<MadeBound, RangeError>) -> io::Result<()> {
    match made {
        Ok(bound) => println!(out; "0 {}", made_bound(&bound)),
        Err(error) => put_refusal(out, error),
    }
}

fn put_made_range(out: &Stdout, made: Result<MadeRange, RangeError>) -> io::Result<()> {
    match made {
        Ok(range) => println!(out; "0 {} {}", made_bound(&range.start), made_bound(&range.end)),
        Err(error) => put_refusal(out, error),
    }
}

// A made bound with the first len of its bytes, or all if there are no more.
fn made_bound(made: &MadeBound) -> Bound<'_> {
    let bytes: &[u8] = &made.bytes;
    Bound {
        kind: made.kind,
        key: bytes.get(..made.len).unwrap_or(bytes),
    }
}
