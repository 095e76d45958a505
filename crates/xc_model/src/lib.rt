//! What exact numbers are, and the lemmas about them that proofs share. There is no code here.
#![tactic(auto)]
