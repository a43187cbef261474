// Document 01's table of replies: why a call refuses, with the code and the number of each refusal.

#![tactic(auto)]

ghost use Rattle.std.specs.Prelude.{◌≡◌};
ghost use Rattle.replies.specs.Table.{code_of, over_number, number_of};

// An end of a record's bounds.
#[derive(Clone, Copy, Debug, PartialEq, Eq)]
pub enum End {
    Low,
    High,
}

// A record whose bounds pass the limit, and the end that does.
#[derive(Clone, Copy, Debug, PartialEq, Eq)]
pub struct Over {
    pub index: u8,
    pub end: End,
}

// Why a call refuses, in the order of test. Code 11 was dropped, and no refusal may take it.
#[derive(Clone, Copy, Debug, PartialEq, Eq)]
pub enum Refusal {
    Length,
    Version,
    Record(usize),
    Operand(usize),
    Solid(usize),
    Limits,
    Map(usize),
    OverRoot(Over),
    Short(usize),
    NotInRoot,
}

impl Over {
    // Twice the record's number, plus 1 for the high end.
    fn number(self) -> usize
        ensures { result ≡ over_number self }
    {
        let twice = 2 * self.index as usize;
        match self.end {
            End::Low => twice,
            End::High => twice + 1,
        }
    }
}

impl Refusal {
    pub fn code(self) -> u32
        ensures { result ≡ code_of self }
    {
        match self {
            Refusal::Length => 1,
            Refusal::Version => 2,
            Refusal::Record(_) => 3,
            Refusal::Operand(_) => 4,
            Refusal::Solid(_) => 5,
            Refusal::Limits => 6,
            Refusal::Map(_) => 9,
            Refusal::OverRoot(_) => 7,
            Refusal::Short(_) => 8,
            Refusal::NotInRoot => 10,
        }
    }

    pub fn number(self) -> usize
        ensures { result ≡ number_of self }
    {
        match self {
            Refusal::Length | Refusal::Version | Refusal::Limits | Refusal::NotInRoot => 0,
            Refusal::Record(at) => at,
            Refusal::Map(at) => at,
            Refusal::Operand(n) | Refusal::Solid(n) | Refusal::Short(n) => n,
            Refusal::OverRoot(over) => over.number(),
        }
    }
}
