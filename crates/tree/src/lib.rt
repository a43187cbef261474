// The tree of cubes: the leaves below a cube, handed to a sink, which counts or writes them.

#![tactic(auto)]

mod leaves;
mod sink;

pub use leaves::give_leaves;
pub use sink::{Counter, Sink, Writer};
