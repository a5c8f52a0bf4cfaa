// Where the record at a place ends.
ghost use Rattle.std.specs.Prelude.{◌+◌};
ghost use Rattle.layout.specs.Offsets.{any_length};
ghost use Rattle.layout.specs.Keys.{key_form, set_form, bound_form, range_form, ranges_form};
ghost use Rattle.layout.specs.Records.{entry_form, txn_form};
ghost use Rattle.layout.specs.Rows.{Here, Rows, Ends};
ghost use Rattle.places.specs.Rows.{Form, formed, RowEnds};

use codec::numbers::read_two;
use layout::{BOUND, COUNT, KEYS, LENGTH, TAG, WRITES};

// Records that stand one after another in a list.
trait Listed {
    ghost form: { Form };

    // Where the one at a place ends.
    fn past(room: &[u8], at: usize) -> usize
        requires { Here form.codec room.now at }
        ensures { Ends form.codec room.now at result };
}

// Where n of them end.
fn row_past<R: Listed>(room: &[u8], at: usize, n: usize) -> usize
    requires { Rows R.form.codec room.now at n }
    ensures { RowEnds R.form.codec room.now at n result }
{
    let mut end = at;
    for _ in 0..n {
        end = R::past(room, end);
    }
    end
}

struct Keys;

impl Listed for Keys {
    ghost form = { formed (key_form any_length) };

    fn past(room: &[u8], at: usize) -> usize {
        key_past(room, at)
    }
}

struct Ranges;

impl Listed for Ranges {
    ghost form = { formed (range_form any_length) };

    fn past(room: &[u8], at: usize) -> usize {
        range_past(room, at)
    }
}

pub fn key_past(room: &[u8], at: usize) -> usize
    requires { Here (key_form any_length) room.now at }
    ensures { Ends (key_form any_length) room.now at result }
{
    at + LENGTH + read_two(room, at)
}

pub fn set_past(room: &[u8], at: usize) -> usize
    requires { Here (set_form any_length) room.now at }
    ensures { Ends (set_form any_length) room.now at result }
{
    row_past::<Keys>(room, at + COUNT, read_two(room, at))
}

pub fn bound_past(room: &[u8], at: usize) -> usize
    requires { Here (bound_form any_length) room.now at }
    ensures { Ends (bound_form any_length) room.now at result }
{
    at + BOUND + read_two(room, at + TAG)
}

pub fn range_past(room: &[u8], at: usize) -> usize
    requires { Here (range_form any_length) room.now at }
    ensures { Ends (range_form any_length) room.now at result }
{
    bound_past(room, bound_past(room, at))
}

pub fn ranges_past(room: &[u8], at: usize) -> usize
    requires { Here (ranges_form any_length) room.now at }
    ensures { Ends (ranges_form any_length) room.now at result }
{
    row_past::<Ranges>(room, at + COUNT, read_two(room, at))
}

pub fn entry_past(room: &[u8], at: usize) -> usize
    requires { Here (entry_form any_length) room.now at }
    ensures { Ends (entry_form any_length) room.now at result }
{
    set_past(room, at + KEYS)
}

pub fn txn_past(room: &[u8], at: usize) -> usize
    requires { Here (txn_form any_length) room.now at }
    ensures { Ends (txn_form any_length) room.now at result }
{
    ranges_past(room, set_past(room, set_past(room, at + WRITES)))
}
