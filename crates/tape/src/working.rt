// A tape worked out over a cube: the bounds of its arithmetic records, then the states of its logical ones.

ghost use Rattle.std.specs.Prelude.{◌≡◌, [], ◌+◌, ◌≤◌, ◌<◌, ◌^◌, map};
ghost use Rattle.interval.specs.Limit.{bounded_of};
ghost use Rattle.sheet.specs.Records.{records_of};
ghost use Rattle.cube.specs.Limits.{Near};
ghost use Rattle.colour.specs.Entries.{first_past};
ghost use Rattle.tape.specs.Memory.{word_in, bounds_in, state_in};
ghost use Rattle.tape.specs.Working.{bounds_word, AllSmall, state_word, Filled, Stated};
ghost use Rattle.tape.specs.Lent.{Lent, Carries, Stand};

use crate::{Kind, Tape, Word};
use colour::{Entries, State, across, face_state};
use cube::Cube;
use interval::Interval;
use replies::End;
use sheet::Comparison;

impl Word {
    // The bounds that it gives its record. A logical one has none, for which 0 stands.
    #[tactic(auto, unfolding(crate::specs::Working::bounds_word, colour::specs::Bounds::bounds_of))]
    fn bounds(self, q: Cube, known: &Entries) -> Result<Interval, End>
        requires near { Near 0 q }
        ensures { result ≡ bounded_of (bounds_word q (bounds_in known.now.bounds) (word_in self)) }
    {
        let first = known.bounds[self.first as usize];
        let second = known.bounds[self.second as usize];
        match self.kind {
            Kind::X => Ok(across(q.x, q.side)),
            Kind::Y => Ok(across(q.y, q.side)),
            Kind::Z => Ok(across(q.z, q.side)),
            Kind::Sum => first.sum(second),
            Kind::Difference => first.difference(second),
            Kind::Product => first.product(second),
            Kind::Square => first.square(),
            Kind::AtMost | Kind::LessThan => Ok(Interval { low: 0, high: 0 }),
            Kind::Both | Kind::Either | Kind::Complement => Ok(Interval { low: 0, high: 0 }),
        }
    }

    // The state that it gives its record. Of an arithmetic one nothing is known.
    #[tactic(auto, unfolding(crate::specs::Working::state_word, colour::specs::States::state_with))]
    fn state(self, known: &Entries) -> State
        ensures { result ≡ state_word (bounds_in known.now.bounds) (state_in known.now.states) (word_in self) }
    {
        let bounds = known.bounds[self.first as usize];
        let first = known.states[self.first as usize];
        let second = known.states[self.second as usize];
        match self.kind {
            Kind::X | Kind::Y | Kind::Z => State::Mixed,
            Kind::Sum | Kind::Difference | Kind::Product | Kind::Square => State::Mixed,
            Kind::AtMost => face_state(Comparison::AtMost, bounds, self.number),
            Kind::LessThan => face_state(Comparison::LessThan, bounds, self.number),
            Kind::Both => first.both(second),
            Kind::Either => first.either(second),
            Kind::Complement => first.complement(),
        }
    }
}

// Works words of arithmetic records out. None passes the limit, so the loop does not return early.
fn fill_bounds(words: &[Word], q: Cube, known: &mut Entries)
    requires small { AllSmall q (bounds_in known.old.bounds) (map word_in words.now) }
    requires near { Near 0 q }
    ensures bounds { Filled q (map word_in words.now) known.old.bounds known.new.bounds }
    ensures states { known.new.states ≡ known.old.states }
{
    for w in words {
        // End by end: a copy of both at once waits for the two stores that it reads, and building takes twice as long.
        let Ok(Interval { low, high }) = w.bounds(q, known) else {
            return;
        };
        known.bounds[w.number as usize] = Interval { low, high };
    }
}

// Counts one more record if it is decided. The count only tells whether to shorten a tape, so nothing else is said of it.
fn counted(n: usize, state: State) -> usize
    requires { n + 1 < 2 ^ 64 }
    ensures { result ≤ n + 1 }
{
    if matches!(state, State::Out | State::In) {
        n + 1
    } else {
        n
    }
}

// Works words of logical records out, and returns how many records are decided.
fn fill_states(words: &[Word], known: &mut Entries) -> usize
    ensures states { Stated (bounds_in known.old.bounds) (map word_in words.now) known.old.states known.new.states }
    ensures bounds { known.new.bounds ≡ known.old.bounds }
{
    let mut decided = 0;
    for w in words {
        let state = w.state(known);
        known.states[w.number as usize] = state;
        decided = counted(decided, state);
    }
    decided
}

// Works a tape out over a cube, so that each of its records has its state there, and returns how many records are decided.
pub fn work_out(s: &[u8], words: &[Word], t: Tape, q: Cube, known: &mut Entries) -> usize
    requires lent { Lent (records_of s.now) known.old.bounds known.old.states }
    requires carries { Carries (records_of s.now) q words.now t }
    requires near { Near 0 q }
    requires none_past { first_past (records_of s.now) q ≡ [] }
    ensures lent { Lent (records_of s.now) known.new.bounds known.new.states }
    ensures stand { Stand (records_of s.now) q words.now t known.new.states }
{
    fill_bounds(&words[t.from..t.mid], q, known);
    fill_states(&words[t.mid..t.to], known)
}
