// Single bounds: what `src/comparable_range.rs` has of Rust's `Bound`, for byte keys.
#![tactic(auto)]

pub mod kind;
