// The tape for the children of a cube: a record whose state is that of its other operand gives way to it, and a word that nothing kept reads is left out.

ghost use Rattle.std.specs.Prelude.{◌≡◌, ◌+◌, ◌≤◌, ◌<◌, length};
ghost use Rattle.carried.specs.Words.{twin_by, word, renamed};
ghost use Rattle.tape.specs.Memory.{record_in, word_in, state_in};
ghost use Rattle.tape.specs.Shortening.{Room, Kept, twin_in, Moves, Moved, Own, Parts, Shortened};

use crate::{Kind, Tape, Word};
use colour::State;

// Moves the marked ones of the words from..to up to `at`, last first, and marks the operands of each. Returns the place of the first. It goes by number, since it
// stores into the list that it reads.
fn keep(tape: &mut [Word], from: usize, to: usize, at: usize, marks: &mut [bool]) -> usize
    requires { Room tape.old from to at marks.old }
    ensures { Kept tape.old from to at marks.old result tape.new marks.new }
{
    let mut next = at;
    for i in (from..to).rev() {
        let w = tape[i];
        if !marks[w.number as usize] {
            continue;
        }
        next -= 1;
        tape[next] = w;
        marks[w.first as usize] = true;
        marks[w.second as usize] = true;
    }
    next
}

impl Word {
    // Whose state its record has over the cubes inside. `twins` says that of earlier records.
    fn twin(self, states: &[State; 256], twins: &[u8; 256]) -> u8
        ensures { result ≡ twin_by (state_in states.now) (twin_in twins.now) self.number (record_in self) }
    {
        let first = states[self.first as usize];
        let second = states[self.second as usize];
        match self.kind {
            Kind::X | Kind::Y | Kind::Z => self.number,
            Kind::Sum | Kind::Difference | Kind::Product | Kind::Square => self.number,
            Kind::AtMost | Kind::LessThan | Kind::Complement => self.number,
            Kind::Both => {
                if first.is_in() {
                    twins[self.second as usize]
                } else if second.is_in() {
                    twins[self.first as usize]
                } else {
                    self.number
                }
            }
            Kind::Either => {
                if first.is_out() {
                    twins[self.second as usize]
                } else if second.is_out() {
                    twins[self.first as usize]
                } else {
                    self.number
                }
            }
        }
    }

    // The same with twins for its logical operands.
    fn renamed(self, twins: &[u8; 256]) -> Word
        ensures { word_in result ≡ word self.number (renamed (twin_in twins.now) (record_in self)) }
    {
        match self.kind {
            Kind::X | Kind::Y | Kind::Z => self,
            Kind::Sum | Kind::Difference | Kind::Product | Kind::Square => self,
            Kind::AtMost | Kind::LessThan => self,
            Kind::Both | Kind::Either | Kind::Complement => Word {
                first: twins[self.first as usize],
                second: twins[self.second as usize],
                ..self
            },
        }
    }
}

// Puts the words from..to, with twins for operands, `down` places before their own, by number, since it is one list. `twins` has the twins of the records before
// them, and then also of theirs.
fn rename(
    tape: &mut [Word],
    from: usize,
    to: usize,
    down: usize,
    states: &[State; 256],
    twins: &mut [u8; 256],
)
    requires moves { Moves tape.old from to down }
    ensures { Moved tape.old from to down states.now twins.old tape.new twins.new }
{
    for i in from..to {
        let w = tape[i];
        let t = w.twin(states, twins);
        tape[i - down] = w.renamed(twins);
        twins[w.number as usize] = t;
    }
}

// Each record is its own twin.
fn own_twins() -> [u8; 256]
    ensures { Own result }
{
    let mut twins = [0; 256];
    for (n, twin) in twins.iter_mut().enumerate() {
        *twin = n as u8;
    }
    twins
}

// Shortens a tape by the states of its records. There must be room for as many words before it.
pub fn shorten(tape: &mut [Word], t: Tape, states: &[State; 256]) -> Tape
    requires parts { Parts tape.old t.from t.mid t.to }
    requires room { t.to ≤ t.from + t.from }
    ensures { Shortened tape.old t.from t.mid t.to t.solid states.now tape.new result.from result.mid result.to result.solid }
{
    let from = t.from;
    let mid = t.mid;
    let down = t.to - from;
    let mut twins = own_twins();
    rename(tape, from, t.to, down, states, &mut twins);
    let solid = twins[t.solid as usize];
    let mut marks = [false; 256];
    marks[solid as usize] = true;
    let m = keep(tape, mid - down, from, from, &mut marks);
    let f = keep(tape, from - down, mid - down, m, &mut marks);
    Tape {
        from: f,
        mid: m,
        to: from,
        solid,
    }
}

// Whether to shorten a tape of so many words, which begins at `from`, for the children of a cube with `left` levels left. At the last level it must be long, since
// its words are worked out only eight times more. Otherwise there must be room to shorten what is left once more; a record that is decided is expected to take
// another with it. Whatever is returned here, the tape is right.
pub fn is_worth(from: usize, words: usize, decided: usize, left: u8) -> bool {
    if decided == 0 {
        return false;
    }
    if left == 1 && words < 40 {
        return false;
    }
    decided >= 256 || words <= from / 2 + 2 * decided
}
