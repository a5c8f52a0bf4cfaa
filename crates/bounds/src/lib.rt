// Pairs of bounds: what `src/comparable_range.rs` has for any ordered type, for byte keys.
#![tactic(auto)]

pub mod comparable_range;
pub mod sides;
