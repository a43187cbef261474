// A zone sheet with a zone map: replies 1 to 5 and 9, with which every call that takes both begins.

#![tactic(auto)]

mod opening;

use cube::Root;
pub use opening::open;

// What is known of a good sheet and a map that opens with it: the number of records, the root, and the offset of the leaf that holds a point.
#[derive(Clone, Copy, Debug, PartialEq, Eq)]
pub struct Pair {
    pub count: usize,
    pub root: Root,
    pub at: usize,
}
