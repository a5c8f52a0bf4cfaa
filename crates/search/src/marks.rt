// A place among the marks of a transaction.
ghost use Rattle.std.specs.Prelude.{◌≡◌, eqb};
ghost use Rattle.layout.specs.Offsets.{any_length};
ghost use Rattle.layout.specs.Records.{txn_form};
ghost use Rattle.layout.specs.Rows.{Here};
ghost use Rattle.search.specs.Search.{marks_left, Stays, MarksAt, Nexts, Meets};

use layout::WRITES;
use places::cursor::Cursor;
use places::skips::{key_past, range_past, set_past};

// What is left of the writes, then of the reads, then of the ranges.
#[derive(Clone, Copy)]
pub struct Marks {
    pub writes: Cursor,
    pub reads: Cursor,
    pub ranges: Cursor,
}

impl Marks {
    // Before the marks of the transaction at a place. The transaction is its place alone, as the room is lent beside it.
    pub fn of(room: &[u8], txn: usize) -> Self
        requires { Here (txn_form any_length) room.now txn }
        ensures { MarksAt room.now txn result }
    {
        let at = txn + WRITES;
        let reads_at = set_past(room, at);
        let ranges_at = set_past(room, reads_at);
        Marks {
            writes: Cursor::of_list(room, at),
            reads: Cursor::of_list(room, reads_at),
            ranges: Cursor::of_list(room, ranges_at),
        }
    }

    pub fn is_over(self) -> bool
        ensures { result ≡ eqb (marks_left self) 0 }
    {
        self.writes.left == 0 && self.reads.left == 0 && self.ranges.left == 0
    }

    // Whether a key meets the first mark that is left.
    pub fn meets(self, room: &[u8], key: &[u8]) -> bool
        requires { Stays room.now self }
        ensures { Meets room.now self key.now result }
    {
        if 0 < self.writes.left {
            return self.writes.is_key(room, key);
        }
        if 0 < self.reads.left {
            return self.reads.is_key(room, key);
        }
        self.ranges.holds(room, key)
    }

    pub fn next(self, room: &[u8]) -> Self
        requires { Stays room.now self }
        ensures { Nexts room.now self result }
    {
        if 0 < self.writes.left {
            let writes = self.writes.past(key_past(room, self.writes.at));
            return Marks { writes, ..self };
        }
        if 0 < self.reads.left {
            let reads = self.reads.past(key_past(room, self.reads.at));
            return Marks { reads, ..self };
        }
        let ranges = self.ranges.past(range_past(room, self.ranges.at));
        Marks { ranges, ..self }
    }
}
