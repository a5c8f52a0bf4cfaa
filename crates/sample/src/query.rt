// Queries: an op, then the fields that it takes.
ghost use Rattle.std.specs.Prelude.{◌<◌, ◌≤◌, length, IfSome};

use crate::field::{Bound, Fields, Range};

#[derive(Clone, Copy)]
pub enum Query<'a> {
    Compare(&'a [u8], &'a [u8]),
    Equal(&'a [u8], &'a [u8]),
    StartsWith(&'a [u8], &'a [u8]),
    CompareStart(Bound<'a>, Bound<'a>),
    CompareEnd(Bound<'a>, Bound<'a>),
    CompareRange(Range<'a>, Range<'a>),
    NonEmpty(Range<'a>),
    Contains(Range<'a>, &'a [u8]),
    AreAdjacent(Range<'a>, Range<'a>),
    Intersect(Range<'a>, Range<'a>),
    Union(Range<'a>, Range<'a>),
    AsPoint(Range<'a>),
    Increment(&'a [u8]),
    New(Range<'a>),
    FromPrefix(&'a [u8]),
    FromPrefixAndSubrange(&'a [u8], Range<'a>),
}

// The query at a place, and where the next one begins.
pub fn query_at<'a>(queries: &'a [u8], at: usize) -> Option<(Query<'a>, usize)>
    requires { at < length queries.now }
    ensures { IfSome result (λ r. at < r.1) }
{
    let mut fields = Fields {
        queries,
        at: at + 1,
    };
    let query = read_query(queries[at], &mut fields)?;
    Some((query, fields.at))
}

fn read_query<'a>(op: u8, fields: &mut Fields<'a>) -> Option<Query<'a>>
    ensures { fields.old.at ≤ fields.new.at }
{
    Some(match op {
        0x01 => Query::Compare(fields.key()?, fields.key()?),
        0x02 => Query::Equal(fields.key()?, fields.key()?),
        0x03 => Query::StartsWith(fields.key()?, fields.key()?),
        0x04 => Query::CompareStart(fields.bound()?, fields.bound()?),
        0x05 => Query::CompareEnd(fields.bound()?, fields.bound()?),
        0x06 => Query::CompareRange(fields.range()?, fields.range()?),
        0x07 => Query::NonEmpty(fields.range()?),
        0x08 => Query::Contains(fields.range()?, fields.key()?),
        0x09 => Query::AreAdjacent(fields.range()?, fields.range()?),
        0x0a => Query::Intersect(fields.range()?, fields.range()?),
        0x0b => Query::Union(fields.range()?, fields.range()?),
        0x0c => Query::AsPoint(fields.range()?),
        0x0d => Query::Increment(fields.key()?),
        0x0e => Query::New(fields.range()?),
        0x0f => Query::FromPrefix(fields.key()?),
        0x10 => Query::FromPrefixAndSubrange(fields.key()?, fields.range()?),
        _ => return None,
    })
}
