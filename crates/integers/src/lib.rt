// Definitions and laws that other crates share, mostly of exact whole numbers: see specs/ and proofs/. There is no code.

#![tactic(auto)]
