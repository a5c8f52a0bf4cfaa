// Document 01's "Pairs at each edge": definitions and their proof, no code.
#![tactic(auto)]
