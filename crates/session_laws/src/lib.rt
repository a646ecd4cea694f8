// What holds of every call: specifications and proofs alone.
#![tactic(auto)]
