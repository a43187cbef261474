// The rules of states, and the class and face that a state gives a leaf.

ghost use Rattle.std.specs.Prelude.{◌≡◌};
ghost use Rattle.colour.specs.States.{is_in, is_out, meets, face_state, complement_of, otherwise_of, both_of, either_of, class_of, face_of};

use crate::State;
use interval::Interval;
use sheet::Comparison;

// Whether a face that compares so holds where its operand is v.
#[tactic(auto, unfolding(crate::specs::States::meets))]
fn meets(by: Comparison, v: i64) -> bool
    ensures { result ≡ meets by v }
{
    match by {
        Comparison::AtMost => v <= 0,
        Comparison::LessThan => v < 0,
    }
}

// The state of face f, which compares so, coloured by these bounds.
#[tactic(auto, unfolding(crate::specs::States::face_state))]
pub fn face_state(by: Comparison, bounds: Interval, f: u8) -> State
    ensures { result ≡ face_state by bounds f }
{
    if meets(by, bounds.high) {
        return State::In;
    }
    if meets(by, bounds.low) {
        return State::Single(f);
    }
    State::Out
}

impl State {
    pub fn is_in(self) -> bool
        ensures { result ≡ is_in self }
    {
        matches!(self, State::In)
    }

    pub fn is_out(self) -> bool
        ensures { result ≡ is_out self }
    {
        matches!(self, State::Out)
    }

    pub fn complement(self) -> State
        ensures { result ≡ complement_of self }
    {
        match self {
            State::Out => State::In,
            State::In => State::Out,
            State::Single(f) => State::Comp(f),
            State::Comp(f) => State::Single(f),
            State::Mixed => State::Mixed,
        }
    }

    // What both and either give if neither state decides and neither leaves it to the other. `decided` is what they give of a face and its complement.
    fn otherwise(self, other: State, decided: State) -> State
        ensures { result ≡ otherwise_of decided self other }
    {
        if self == other {
            return self; // one face, mentioned twice
        }
        if self == other.complement() {
            return decided;
        }
        State::Mixed
    }

    // Both and either are two rules of document 01, and stand here as two; what they have in common is `joined_by` of specs/States.
    #[tactic(auto, unfolding(crate::specs::States::joined_by))]
    pub fn both(self, other: State) -> State
        ensures { result ≡ both_of self other }
    {
        if self.is_out() {
            return State::Out;
        }
        if other.is_out() {
            return State::Out;
        }
        if self.is_in() {
            return other;
        }
        if other.is_in() {
            return self;
        }
        self.otherwise(other, State::Out)
    }

    #[tactic(auto, unfolding(crate::specs::States::joined_by))]
    pub fn either(self, other: State) -> State
        ensures { result ≡ either_of self other }
    {
        if self.is_in() {
            return State::In;
        }
        if other.is_in() {
            return State::In;
        }
        if self.is_out() {
            return other; // this one holds nowhere
        }
        if other.is_out() {
            return self; // the other holds nowhere
        }
        self.otherwise(other, State::In)
    }

    // The class of a leaf.
    pub fn class(self) -> u8
        ensures { result ≡ class_of self }
    {
        match self {
            State::Out => 0,
            State::In => 1,
            State::Single(_) => 2,
            State::Comp(_) => 3,
            State::Mixed => 4,
        }
    }

    // The face that a leaf names, 0 if it names none.
    pub fn face(self) -> u8
        ensures { result ≡ face_of self }
    {
        match self {
            State::Single(f) | State::Comp(f) => f,
            _ => 0,
        }
    }
}
