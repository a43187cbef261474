// The leaves of a map, its gray ones replaced by those of their cubes at a greater depth.

ghost use Rattle.tree.specs.Solid.{solid_state};
ghost use Rattle.replacing.specs.Replace.{refined_leaves};
ghost use Rattle.replacing.specs.Walk.{Deeper};
ghost use Rattle.refine.specs.Leaves.{few};

use building::LentSource;
use colour::Entries;
use cube::Root;
use tape::{Tape, Word};
use tree::Sink;

#[derive(Drop)]
pub struct Deeper<'a> {
    pub map: &'a [u8],
}

impl LentSource for Deeper<'_> {
    ghost leaves = { λ from rs root. refined_leaves (solid_state rs) root.d from.map.now };

    ghost suits = { λ from root. Deeper from.map.now root };

    fn give<S: Sink>(
        &self,
        s: &[u8],
        words: &mut [Word],
        known: &mut Entries,
        t: Tape,
        root: Root,
        sink: &mut S,
    ) {
        replacing::walk(s, self.map, words, known, t, root.cube(), root.d, 0, sink);
    }

    ghost few = { λ from rs root _ suited. few from.map.now root suited (solid_state rs) };
}
