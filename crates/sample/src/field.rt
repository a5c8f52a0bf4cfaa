// The fields of a query: keys, bounds and ranges, read one after the other.
ghost use Rattle.std.specs.Prelude.{◌≤◌};

use bounds::comparable_range::ComparableRange;
use fields::{KEY, Span};
use kinds::kind::Kind;

// A bound with its key; beside an unbounded kind stands no byte.
#[derive(Clone, Copy)]
pub struct Bound<'a> {
    pub kind: Kind,
    pub key: &'a [u8],
}

#[derive(Clone, Copy)]
pub struct Range<'a> {
    pub start: Bound<'a>,
    pub end: Bound<'a>,
}

impl Range<'_> {
    pub fn kinds(self) -> ComparableRange {
        ComparableRange::new(self.start.kind, self.end.kind)
    }
}

// The fields that are not read yet: `at` is where the next begins.
#[derive(Drop)]
pub struct Fields<'a> {
    pub queries: &'a [u8],
    pub at: usize,
}

impl<'a> Fields<'a> {
    // The next field's tag and payload, none where the queries end or a field is cut.
    fn field(&mut self) -> Option<(u8, &'a [u8])>
        ensures { self.old.at ≤ self.new.at }
    {
        let Ok(Some(field)) = fields::field_at(self.queries, self.at) else {
            return None;
        };
        let Span { from, to } = field.payload;
        self.at = to;
        Some((field.tag, &self.queries[from..to]))
    }

    pub fn key(&mut self) -> Option<&'a [u8]>
        ensures { self.old.at ≤ self.new.at }
    {
        match self.field()? {
            (KEY, key) => Some(key),
            _ => None,
        }
    }

    pub fn bound(&mut self) -> Option<Bound<'a>>
        ensures { self.old.at ≤ self.new.at }
    {
        let (tag, key) = self.field()?;
        let kind = Kind::try_from(tag).ok()?;
        (kind.bounded() || key.is_empty()).then_some(Bound { kind, key })
    }

    pub fn range(&mut self) -> Option<Range<'a>>
        ensures { self.old.at ≤ self.new.at }
    {
        let start = self.bound()?;
        let end = self.bound()?;
        Some(Range { start, end })
    }
}
