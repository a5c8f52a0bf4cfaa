// Numbers in bytes, for records that are kept in a lent run of bytes.
#![tactic(auto)]

pub mod numbers;
