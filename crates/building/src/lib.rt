// Building a zone map from a zone sheet: the leaves are counted, then written into the lent buffer. Refining a map writes its leaves in the same way.

#![tactic(auto)]

mod building;
mod fresh;
mod source;
#[cfg(test)]
mod tests;

pub use building::{build, over_root};
pub use source::{LentSource, Source};
