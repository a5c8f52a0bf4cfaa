// Scripts: the call that a record is, and records served one after the other.
#![tactic(auto)]

pub mod feed;
pub mod lines;
pub mod records;
pub mod served;
