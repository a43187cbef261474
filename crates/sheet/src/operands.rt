// Operands: each an earlier record of the right sort. The last record must be logical.

ghost use Rattle.std.specs.Prelude.{◌≡◌};
ghost use Rattle.sheet.specs.Records.{records_of};
ghost use Rattle.sheet.specs.Operands.{sort_of, asked_of, first_of, second_of, suits, are_met};
ghost use Rattle.sheet.specs.Check.{solid_of, check_records};

use crate::{Cursor, Record, Sort};
use replies::Refusal;

impl Record {
    pub fn sort(self) -> Sort
        ensures { result ≡ sort_of self }
    {
        match self {
            Record::Constant(_) | Record::X | Record::Y | Record::Z => Sort::Arithmetic,
            Record::Sum(_, _) | Record::Difference(_, _) | Record::Product(_, _) =>
                Sort::Arithmetic,
            Record::Square(_) => Sort::Arithmetic,
            Record::Face(_, _) => Sort::Logical,
            Record::Both(_, _) | Record::Either(_, _) | Record::Complement(_) => Sort::Logical,
        }
    }

    // The sort that its operands are to be of; neither where it has none.
    fn asked(self) -> Sort
        ensures { result ≡ asked_of self }
    {
        match self {
            Record::Constant(_) | Record::X | Record::Y | Record::Z => Sort::Neither,
            Record::Sum(_, _) | Record::Difference(_, _) | Record::Product(_, _) =>
                Sort::Arithmetic,
            Record::Square(_) | Record::Face(_, _) => Sort::Arithmetic,
            Record::Both(_, _) | Record::Either(_, _) | Record::Complement(_) => Sort::Logical,
        }
    }

    // The number of its first operand; 0 where it has none, as `first_of` says: there any number will do.
    pub fn first(self) -> u8
        ensures { result ≡ first_of self }
    {
        match self {
            Record::Constant(_) | Record::X | Record::Y | Record::Z => 0,
            Record::Sum(a, _) | Record::Difference(a, _) | Record::Product(a, _) => a,
            Record::Square(a) | Record::Face(_, a) => a,
            Record::Both(a, _) | Record::Either(a, _) | Record::Complement(a) => a,
        }
    }

    // The number of its last operand, which is the first where it has one; 0 where it has none.
    pub fn second(self) -> u8
        ensures { result ≡ second_of self }
    {
        match self {
            Record::Constant(_) | Record::X | Record::Y | Record::Z => 0,
            Record::Sum(_, b) | Record::Difference(_, b) | Record::Product(_, b) => b,
            Record::Square(a) | Record::Face(_, a) => a,
            Record::Both(_, b) | Record::Either(_, b) | Record::Complement(b) => b,
        }
    }
}

impl Sort {
    // Whether a record of this sort may be an operand where that sort is asked.
    fn suits(self, asked: Sort) -> bool
        ensures { result ≡ suits asked self }
    {
        asked == Sort::Neither || self == asked
    }
}

// Whether records of these two sorts may be the operands where that sort is asked.
fn met(asked: Sort, first: Sort, second: Sort) -> bool
    ensures { result ≡ are_met asked first second }
{
    first.suits(asked) && second.suits(asked)
}

// The last record must be logical and is the solid; n is how many records there are.
fn solid(last: Sort, n: usize) -> Result<usize, Refusal>
    ensures { result ≡ solid_of last n }
{
    match last {
        Sort::Neither | Sort::Arithmetic => Err(Refusal::Solid(n)),
        Sort::Logical => Ok(n),
    }
}

// Replies 4 and 5: each record's operands are earlier records of the right sort, and the last record is logical.
pub fn check_records(s: &[u8]) -> Result<usize, Refusal>
    ensures { result ≡ check_records (records_of s.now) }
{
    let mut sorts = [Sort::Neither; 256];
    let mut last = Sort::Neither;
    let mut n = 0;
    let mut c = Cursor::start();
    while let Ok((r, next)) = c.read(s) {
        let first = sorts[r.first() as usize];
        let second = sorts[r.second() as usize];
        if !met(r.asked(), first, second) {
            return Err(Refusal::Operand(n));
        }
        last = r.sort();
        sorts[n] = last;
        n += 1;
        c = next;
    }
    solid(last, n)
}
