// What a sheet means at a point whose coordinates are fractions: definitions in specs/, laws of them in proofs/. There is no code.

#![tactic(auto)]
