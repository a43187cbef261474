// What building writes, opening reads back: laws over both sides of the zone map, see proofs/. There is no code.

#![tactic(auto)]
