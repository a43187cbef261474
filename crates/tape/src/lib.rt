// What is carried down to the children of a cube, in memory: a tape of words, one for each record that can still matter. Records that are decided over a cube
// stay decided inside it, so the tape for its children is shorter.

#![tactic(auto)]

mod listing;
mod shortening;
mod walking;
mod words;
mod working;

pub use walking::{carry, start, state};
pub use working::work_out;

// What a word's record is made of. A face is of one of two kinds, by its comparison. There is none for a constant, which has no word.
#[derive(Clone, Copy, Debug, PartialEq, Eq)]
pub enum Kind {
    X,
    Y,
    Z,
    Sum,
    Difference,
    Product,
    Square,
    AtMost,
    LessThan,
    Both,
    Either,
    Complement,
}

// The number of a record, those of its operands, and its kind: four bytes, so that a tape is short. An operand that a kind does not have is 0 or the other one.
#[derive(Clone, Copy, Debug, PartialEq, Eq)]
pub struct Word {
    pub number: u8,
    pub first: u8,
    pub second: u8,
    pub kind: Kind,
}

// The words from..mid are of arithmetic records, mid..to of logical ones. The solid's state is that of record `solid`.
#[derive(Clone, Copy, Debug, PartialEq, Eq)]
pub struct Tape {
    pub from: usize,
    pub mid: usize,
    pub to: usize,
    pub solid: u8,
}

const _: () = prove!(size_of::<Word>() == 4);
