// The table of kinds: which record the bytes at an offset are.

ghost use Rattle.std.specs.Prelude.{◌≡◌, ◌+◌, ◌<◌, pos, length, get_or};
ghost use Rattle.sheet.specs.Table.{comparison_of, row_of, row_at};
ghost use Rattle.sheet.specs.declared.Comparison.TheVariants.{AtMost};

use crate::{Comparison, Record};

impl Comparison {
    // How the faces of a sheet of this version compare.
    #[tactic(auto, unfolding(crate::specs::Table::comparison_of))]
    pub fn of(version: u8) -> Comparison
        ensures { result ≡ comparison_of version }
    {
        if version == 2 {
            Comparison::LessThan
        } else {
            Comparison::AtMost
        }
    }
}

#[tactic(auto, unfolding(crate::specs::Table::row_of))]
fn no_operand(kind: u8) -> Option<Record>
    ensures { result ≡ row_of AtMost 1 kind 0 0 (pos 0) }
{
    match kind {
        2 => Some(Record::X),
        3 => Some(Record::Y),
        4 => Some(Record::Z),
        _ => None,
    }
}

#[tactic(auto, unfolding(crate::specs::Table::row_of))]
fn one_operand(by: Comparison, kind: u8, a: u8) -> Option<Record>
    ensures { result ≡ row_of by 2 kind a 0 (pos 0) }
{
    match kind {
        8 => Some(Record::Square(a)),
        16 => Some(Record::Face(by, a)),
        19 => Some(Record::Complement(a)),
        _ => None,
    }
}

#[tactic(auto, unfolding(crate::specs::Table::row_of))]
fn two_operands(kind: u8, a: u8, b: u8) -> Option<Record>
    ensures { result ≡ row_of AtMost 3 kind a b (pos 0) }
{
    match kind {
        5 => Some(Record::Sum(a, b)),
        6 => Some(Record::Difference(a, b)),
        7 => Some(Record::Product(a, b)),
        17 => Some(Record::Both(a, b)),
        18 => Some(Record::Either(a, b)),
        _ => None,
    }
}

// The row that matches the record whose count byte, `size`, is at `at`.
#[tactic(auto, unfolding(crate::specs::Table::row_at, crate::specs::Table::row_of))]
pub fn row_at(s: &[u8], at: usize, size: usize) -> Option<Record>
    requires count_byte { size ≡ get_or s.now at 0 }
    requires inside { at + size < length s.now }
    ensures { result ≡ row_at s.now at }
{
    match size {
        1 => no_operand(s[at + 1]),
        2 => one_operand(Comparison::of(s[2]), s[at + 1], s[at + 2]),
        3 => two_operands(s[at + 1], s[at + 2], s[at + 3]),
        5 if s[at + 1] == 1 => Some(Record::Constant(bigendian::i32_at(s, at + 2))),
        _ => None,
    }
}
