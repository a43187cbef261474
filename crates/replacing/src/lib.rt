// The leaves of a map, each gray one replaced by the leaves of its cube at a greater depth: handed to a sink, which counts or writes them.

#![tactic(auto)]

mod along;
mod seed;

pub use along::walk;
pub use seed::gray_map;
