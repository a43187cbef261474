// Refining a finished map: a second map of a greater depth, in which each gray leaf is replaced.

#![tactic(auto)]

mod deepening;
mod refining;

pub use refining::refine;
