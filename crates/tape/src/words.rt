// One word, and the word of one record.

ghost use Rattle.std.specs.Prelude.{◌≡◌};
ghost use Rattle.tape.specs.Memory.{has_state};
ghost use Rattle.tape.specs.Listing.{kind_of, word_of};

use crate::{Kind, Word};
use sheet::{Comparison, Record};

impl Kind {
    // Whether its records are logical.
    pub fn is_logical(self) -> bool
        ensures { result ≡ has_state self }
    {
        match self {
            Kind::X | Kind::Y | Kind::Z => false,
            Kind::Sum | Kind::Difference | Kind::Product | Kind::Square => false,
            Kind::AtMost | Kind::LessThan => true,
            Kind::Both | Kind::Either | Kind::Complement => true,
        }
    }
}

impl Word {
    // What stands where no word is.
    pub const EMPTY: Word = Word {
        number: 0,
        first: 0,
        second: 0,
        kind: Kind::X,
    };
}

fn kind_of(r: Record) -> Option<Kind>
    ensures { result ≡ kind_of r }
{
    match r {
        Record::Constant(_) => None,
        Record::X => Some(Kind::X),
        Record::Y => Some(Kind::Y),
        Record::Z => Some(Kind::Z),
        Record::Sum(_, _) => Some(Kind::Sum),
        Record::Difference(_, _) => Some(Kind::Difference),
        Record::Product(_, _) => Some(Kind::Product),
        Record::Square(_) => Some(Kind::Square),
        Record::Face(Comparison::AtMost, _) => Some(Kind::AtMost),
        Record::Face(Comparison::LessThan, _) => Some(Kind::LessThan),
        Record::Both(_, _) => Some(Kind::Both),
        Record::Either(_, _) => Some(Kind::Either),
        Record::Complement(_) => Some(Kind::Complement),
    }
}

// The word of record n; a constant has none.
pub fn word_of(r: Record, n: u8) -> Option<Word>
    ensures { result ≡ word_of n r }
{
    Some(Word {
        number: n,
        first: r.first(),
        second: r.second(),
        kind: kind_of(r)?,
    })
}
