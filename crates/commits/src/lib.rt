// The calls that change the list of entries: a commit, a batch and a drop.
#![tactic(auto)]

pub mod batch;
pub mod commit;
pub mod drop;
