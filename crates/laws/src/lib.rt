// Definitions and laws that several crates cite: specs/ and proofs/. No function stands here.
#![tactic(auto)]
