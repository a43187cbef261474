// The zone sheet: reads its records one by one from any bytes, and tests the whole sheet in the order of replies 1 to 5.

#![tactic(auto)]

mod checking;
mod operands;
mod reading;
mod table;

pub use checking::check;

// How a face compares its operand with 0: at most 0 in a version 1 sheet; less than 0 in a version 2 sheet, so that a face excludes its own points.
#[derive(Clone, Copy, Debug, PartialEq, Eq)]
pub enum Comparison {
    AtMost,
    LessThan,
}

// A record: its kind and what follows the kind. An operand is the number of an earlier record. A face also has the comparison of its sheet's version, so that
// whatever goes by records needs no version.
#[derive(Clone, Copy, Debug, PartialEq, Eq)]
pub enum Record {
    Constant(i32),
    X,
    Y,
    Z,
    Sum(u8, u8),
    Difference(u8, u8),
    Product(u8, u8),
    Square(u8),
    Face(Comparison, u8),
    Both(u8, u8),
    Either(u8, u8),
    Complement(u8),
}

// Where the next record starts, and how many records may still follow.
#[derive(Clone, Copy, Debug, PartialEq, Eq)]
pub struct Cursor {
    pub at: usize,
    pub left: usize,
}

// The sort of a record: kinds 1 to 8 are arithmetic, 16 to 19 logical. A missing record is neither, and no
// operand is asked to be neither: `asked_of`, `suits` and `last_sort` of specs/ have this third sort, so it is no Option.
#[derive(Clone, Copy, Debug, PartialEq, Eq)]
pub enum Sort {
    Neither,
    Arithmetic,
    Logical,
}
