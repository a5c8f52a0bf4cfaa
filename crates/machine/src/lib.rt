// The simple machine of document 01: definitions, and the demands as theorems about them. The code has only the name of a set.
#![tactic(auto)]

// The set that the keys of a list go to.
#[derive(Clone, Copy)]
pub enum Which {
    Writes,
    Reads,
}
