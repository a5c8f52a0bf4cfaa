// The boundary: each call of the library under a C name, with its contract.
#![tactic(auto)]

pub mod boundary;
pub mod bytes_range;
pub mod transaction_manager;
