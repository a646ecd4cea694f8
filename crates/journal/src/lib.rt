// The journal, the latest-line rule and demand 3: specifications and proofs alone.
#![tactic(auto)]
