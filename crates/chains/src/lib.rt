// Mathematics alone, no code: what it is for a sequence of slots to be linked by its cells. The crate is its specs/ and proofs/.
#![tactic(auto)]
