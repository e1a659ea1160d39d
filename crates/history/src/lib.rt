// The history theorem: specs/ and proofs/ alone.
#![tactic(auto)]
