// Ranges of keys: what `src/bytes_range.rs` has, over lent slices and made keys by value.
#![tactic(auto)]

pub mod bytes_range;
pub mod made;
