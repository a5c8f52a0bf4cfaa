// Looking through the active transactions of a room.
ghost use Rattle.layout.specs.Offsets.{any_length};
ghost use Rattle.layout.specs.Records.{txn_form};
ghost use Rattle.layout.specs.Rows.{Rows};
ghost use Rattle.places.specs.Finds.{Found, LowestIs};

use crate::skips::txn_past;
use codec::numbers::read_eight;
use fields::Span;
use keys::compare;
use layout::{ID, START};

// Looks for an id among the n transactions from a place on: where its transaction stands, or else the place that it belongs to.
// Records differ in length, so it goes from one to the next.
pub fn find_txn(room: &[u8], at: usize, n: usize, id: &[u8]) -> Result<Span, usize>
    requires { Rows (txn_form any_length) room.now at n }
    ensures { Found room.now at n id.now result }
{
    let mut from = at;
    for _ in 0..n {
        let sign = compare(id, &room[from..from + ID]);
        if sign < 0 {
            return Err(from);
        }
        let to = txn_past(room, from);
        if sign == 0 {
            return Ok(Span { from, to });
        }
        from = to;
    }
    Err(from)
}

// The least of `most` and the starts of the n transactions from a place on.
pub fn least_start(room: &[u8], at: usize, n: usize, most: u64) -> u64
    requires { Rows (txn_form any_length) room.now at n }
    ensures { LowestIs room.now at n most result }
{
    let mut from = at;
    let mut low = most;
    for _ in 0..n {
        low = low.min(read_eight(room, from + START));
        from = txn_past(room, from);
    }
    low
}
