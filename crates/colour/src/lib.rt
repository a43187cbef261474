// Colour of a cube: the bounds of all records over it, the states of the logical ones, and the class of the solid's state.

#![tactic(auto)]

ghost use Rattle.std.specs.Prelude.{◌≡◌, ℕ, length, get_or, replicate};
ghost use Rattle.interval.specs.Limit.{SmallEnds};
ghost use Rattle.colour.specs.Bounds.{none};

mod judging;
mod rules;
mod states;

use interval::Interval;
pub use judging::judge;
pub use rules::across;
pub use states::face_state;

// What is known of a logical record over a cube: it holds nowhere in the cube; it holds all over it; it holds exactly where one face does; it holds exactly
// where that face does not; or nothing is known. The variants are in the order of their classes, 0 to 4.
#[derive(Clone, Copy, Debug, PartialEq, Eq)]
pub enum State {
    Out,
    In,
    Single(u8),
    Comp(u8),
    Mixed,
}

// What is known of each record over a cube, by its number: its bounds, which are within the limit, and its state.
#[derive(Clone, Copy)]
pub struct Entries {
    pub bounds: [Interval; 256],
    pub states: [State; 256],
    pub ghost bounds_long: { length bounds ≡ 256 },
    pub ghost states_long: { length states ≡ 256 },
    pub ghost small: { (a : ℕ) → SmallEnds (get_or bounds a none) },
}

impl Entries {
    // Nothing is known yet. Each record is as a missing one is: its bounds are [0, 0], and it holds nowhere.
    pub fn blank() -> Entries
        ensures bounds { result.bounds ≡ replicate 256 none }
        ensures states { result.states ≡ replicate 256 State.Out }
    {
        Entries {
            bounds: [Interval { low: 0, high: 0 }; 256],
            states: [State::Out; 256],
        }
    }
}
