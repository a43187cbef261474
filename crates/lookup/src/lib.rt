// Looking a position up in a zone map.

#![tactic(auto)]

mod looking;
mod numbers;

pub use looking::lookup;
pub use numbers::numbered;

// Where a position lies.
#[derive(Clone, Copy, Debug, PartialEq, Eq)]
pub enum Answer {
    Outside,
    Inside,
    Undecided,
}
