// The leaves that the rules of building name.

ghost use Rattle.cube.specs.Cubes.{root_cube};
ghost use Rattle.cube.proofs.Limits.{limits-sizes};
ghost use Rattle.tree.specs.Solid.{solid_state, leaves_below};
ghost use Rattle.tree.proofs.Cubes.{leaves-few};

use crate::LentSource;
use colour::Entries;
use cube::Root;
use tape::{Tape, Word};
use tree::Sink;

#[derive(Drop)]
pub struct Fresh;

impl LentSource for Fresh {
    ghost leaves = { λ _ rs root. leaves_below (solid_state rs) root.d (root_cube root) };

    ghost suits = { λ _ _. Unit {0} };

    fn give<S: Sink>(
        &self,
        s: &[u8],
        words: &mut [Word],
        known: &mut Entries,
        t: Tape,
        root: Root,
        sink: &mut S,
    ) {
        tree::give_leaves(s, words, known, t, root.cube(), root.d, sink);
    }

    ghost few = { λ _ rs root within _. leaves-few (solid_state rs) root.d (root_cube root) (limits-sizes root within).1 };
}
