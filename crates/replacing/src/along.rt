// A walk along the tree of a map, from the root down, so that a gray leaf is reached with the tape that is carried down to its cube. Leaves that stand are
// handed on as they are; the cubes above them are worked out, for their tape alone.

ghost use Rattle.std.specs.Prelude.{◌≡◌, ◌+◌, length};
ghost use Rattle.sheet.specs.Records.{records_of};
ghost use Rattle.zonemap.specs.Opening.{leaves_of};
ghost use Rattle.tape.specs.Lent.{work};
ghost use Rattle.tree.specs.Solid.{solid_state};
ghost use Rattle.tree.specs.Walk.{Ready, Left};
ghost use Rattle.replacing.specs.Replace.{replaced};
ghost use Rattle.replacing.specs.Walk.{between, Along, Passed};

use colour::Entries;
use cube::Cube;
use tape::{Tape, Word};
use tree::Sink;
use zonemap::Leaf;

// Hands what one leaf is replaced by to a sink. Made part of the walk, it would take more stack at each level.
#[inline(never)]
fn replace<S: Sink>(
    s: &[u8],
    words: &mut [Word],
    known: &mut Entries,
    t: Tape,
    q: Cube,
    left: u8,
    leaf: Leaf,
    sink: &mut S,
)
    requires ready { Ready (records_of s.now) left q (work words.old known.old) t }
    requires room { S.room sink.old (length (replaced (solid_state (records_of s.now)) left q leaf)) }
    ensures work { Left (records_of s.now) t (work words.old known.old) (work words.new known.new) }
    ensures taken { sink.new ≡ S.after sink.old (replaced (solid_state (records_of s.now)) left q leaf) }
{
    if leaf.class == 4 {
        tree::give_leaves(s, words, known, t, q, left, sink);
    } else {
        sink.put(leaf);
    }
}

// Hands what the leaves of a cube of the map's tree are replaced by to a sink. Leaf i is the first of them; returns the number of the leaf after them. `left` is
// the new depth minus the cube's level.
pub fn walk<S: Sink>(
    s: &[u8],
    map: &[u8],
    words: &mut [Word],
    known: &mut Entries,
    t: Tape,
    q: Cube,
    left: u8,
    i: usize,
    sink: &mut S,
) -> usize
    requires ready { Ready (records_of s.now) left q (work words.old known.old) t }
    requires along { Along (q.level + left) map.now q i }
    requires room { S.room sink.old (length (between (solid_state (records_of s.now)) (q.level + left) map.now i (length (leaves_of map.now)))) }
    ensures work { Left (records_of s.now) t (work words.old known.old) (work words.new known.new) }
    ensures passed { Passed map.now q i result }
    ensures taken { sink.new ≡ S.after sink.old (between (solid_state (records_of s.now)) (q.level + left) map.now i result) }
{
    let leaf = zonemap::leaf_at(map, zonemap::HEADER + 3 * i);
    if leaf.level == q.level {
        replace(s, words, known, t, q, left, leaf, sink);
        return i + 1;
    }
    let decided = tape::work_out(s, words, t, q, known);
    let u = tape::carry(s, words, known, t, q, decided, left);
    let mut next = i;
    for k in 0..8 {
        next = walk(s, map, words, known, u, q.child(k), left - 1, next, sink);
    }
    next
}
