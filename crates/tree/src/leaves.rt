// The leaves below a cube, in their order. A cube is coloured by the tape that is carried down to it; if it is gray, it carries a tape down to its eight children in
// turn. If no record passes the limit over a cube, none does over a smaller one, so the caller tests the limit once, for the first cube.
// `s` is passed on only for the contracts, which speak of its records: a function that calls itself cannot have a `ghost` value in its place.

ghost use Rattle.std.specs.Prelude.{◌≡◌, length};
ghost use Rattle.sheet.specs.Records.{records_of};
ghost use Rattle.tape.specs.Lent.{work};
ghost use Rattle.tree.specs.Solid.{solid_state, leaf_by, leaves_below};
ghost use Rattle.tree.specs.Walk.{Ready, Left};

use crate::Sink;
use colour::{Entries, State};
use cube::Cube;
use tape::{Tape, Word};
use zonemap::Leaf;

// The leaf of a state.
fn leaf(level: u8, state: State) -> Leaf
    ensures { result ≡ leaf_by level state }
{
    Leaf {
        level,
        class: state.class(),
        face: state.face(),
    }
}

// Hands the leaves below a cube with `left` levels left to a sink. At the last level a cube is one leaf, whatever its colour, so a sink that need not look at
// leaves takes those of the last level unseen.
pub fn give_leaves<S: Sink>(
    s: &[u8],
    words: &mut [Word],
    known: &mut Entries,
    t: Tape,
    q: Cube,
    left: u8,
    sink: &mut S,
)
    requires ready { Ready (records_of s.now) left q (work words.old known.old) t }
    requires room { S.room sink.old (length (leaves_below (solid_state (records_of s.now)) left q)) }
    ensures work { Left (records_of s.now) t (work words.old known.old) (work words.new known.new) }
    ensures taken { sink.new ≡ S.after sink.old (leaves_below (solid_state (records_of s.now)) left q) }
{
    if left == 0 && sink.take_unseen(1) {
        return;
    }
    let decided = tape::work_out(s, words, t, q, known);
    let state = tape::state(known, t.solid);
    let class = state.class();
    if left == 0 || class != 4 {
        sink.put(leaf(q.level, state));
        return;
    }
    if left == 1 && sink.take_unseen(8) {
        return;
    }
    let u = tape::carry(s, words, known, t, q, decided, left);
    for k in 0..8 {
        give_leaves(s, words, known, u, q.child(k), left - 1, sink);
    }
}
