// Document 01's number for each answer.

ghost use Rattle.std.specs.Prelude.{◌≡◌};
ghost use Rattle.lookup.specs.Lookup.{answer_number, numbered};

use crate::Answer;
use replies::Refusal;

impl Answer {
    pub fn number(self) -> usize
        ensures { result ≡ answer_number self }
    {
        match self {
            Answer::Outside => 0,
            Answer::Inside => 1,
            Answer::Undecided => 2,
        }
    }
}

// A reply with its answer as a number.
pub fn numbered(reply: Result<Answer, Refusal>) -> Result<usize, Refusal>
    ensures { result ≡ numbered reply }
{
    reply.map(Answer::number)
}
