// Bounds contain values and states are sound at every point of a closed cube, fractions included: laws of `colour` and `meaning`, in proofs/. There is no code.

#![tactic(auto)]
