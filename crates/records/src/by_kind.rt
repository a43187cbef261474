// The record at an offset.

ghost use Rattle.std.specs.Prelude.{◌≡◌, Some};
ghost use Rattle.sheet.specs.Table.{row_at, Stands};

use sheet::{Comparison, Record};

// The record at an offset where one is known to stand.
pub fn record_at(s: &[u8], at: usize) -> Record
    requires { Stands s.now at }
    ensures { row_at s.now at ≡ Some result }
{
    match s[at + 1] {
        1 => Record::Constant(bigendian::i32_at(s, at + 2)),
        2 => Record::X,
        3 => Record::Y,
        4 => Record::Z,
        5 => Record::Sum(s[at + 2], s[at + 3]),
        6 => Record::Difference(s[at + 2], s[at + 3]),
        7 => Record::Product(s[at + 2], s[at + 3]),
        8 => Record::Square(s[at + 2]),
        16 => Record::Face(Comparison::of(s[2]), s[at + 2]),
        17 => Record::Both(s[at + 2], s[at + 3]),
        18 => Record::Either(s[at + 2], s[at + 3]),
        _ => Record::Complement(s[at + 2]),
    }
}
