// The three demands: stated in specs/Demands.antt, proved in proofs/. There is no code, and nothing depends on this crate.

#![tactic(auto)]
