// The transaction manager over a lent room: every call takes any bytes, and keeps the one contract `Served`.
#![tactic(auto, using(answers::proofs::SeenLaws::no_view))]

pub mod transaction_manager;
