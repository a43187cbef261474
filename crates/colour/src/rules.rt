// One record over a cube: its bounds and its state, from those of its operands.

ghost use Rattle.std.specs.Prelude.{◌≡◌, ◌+◌, ◌≤◌, ◌^◌, nat_abs};
ghost use Rattle.interval.specs.Limit.{bounded_of};
ghost use Rattle.sheet.specs.Operands.{first_of, second_of};
ghost use Rattle.cube.specs.Limits.{Near};
ghost use Rattle.colour.specs.Bounds.{across, bounds_of};
ghost use Rattle.colour.specs.States.{state_of};
ghost use Rattle.colour.specs.Held.{held_at, state_at};

use crate::{Entries, State, states};
use cube::Cube;
use interval::Interval;
use replies::End;
use sheet::Record;

// The bounds of a coordinate.
pub fn across(low: i32, side: u32) -> Interval
    requires { nat_abs low + side ≤ 2 ^ 21 }
    ensures { result ≡ across low side }
{
    Interval {
        low: low as i64,
        high: low as i64 + side as i64,
    }
}

// The bounds of a record, from those of the records before it.
#[tactic(auto, unfolding(crate::specs::Bounds::bounds_of))]
pub fn bounds(r: Record, q: Cube, known: &Entries) -> Result<Interval, End>
    requires { Near 0 q }
    ensures { result ≡ bounded_of (bounds_of q (held_at known.now (first_of r)) (held_at known.now (second_of r)) r) }
{
    match r {
        Record::Constant(c) => Ok(Interval {
            low: c as i64,
            high: c as i64,
        }),
        Record::X => Ok(across(q.x, q.side)),
        Record::Y => Ok(across(q.y, q.side)),
        Record::Z => Ok(across(q.z, q.side)),
        Record::Sum(a, b) => known.bounds[a as usize].sum(known.bounds[b as usize]),
        Record::Difference(a, b) => known.bounds[a as usize].difference(known.bounds[b as usize]),
        Record::Product(a, b) => known.bounds[a as usize].product(known.bounds[b as usize]),
        Record::Square(a) => known.bounds[a as usize].square(),
        _ => Ok(Interval { low: 0, high: 0 }),
    }
}

// The state of record n, from the bounds and the states of the records before it.
#[tactic(auto, unfolding(crate::specs::States::state_with))]
pub fn state(r: Record, n: u8, known: &Entries) -> State
    ensures { result ≡ state_of n (held_at known.now (first_of r)) (state_at known.now (first_of r)) (state_at known.now (second_of r)) r }
{
    match r {
        Record::Face(by, a) => states::face_state(by, known.bounds[a as usize], n),
        Record::Both(a, b) => known.states[a as usize].both(known.states[b as usize]),
        Record::Either(a, b) => known.states[a as usize].either(known.states[b as usize]),
        Record::Complement(a) => known.states[a as usize].complement(),
        _ => State::Mixed,
    }
}
