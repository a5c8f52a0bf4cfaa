// Walking over the parts of a room that is known to hold a state: nothing is validated again.
#![tactic(auto)]

pub mod cursor;
pub mod finds;
pub mod skips;
