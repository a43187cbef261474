// Where the leaves of a new map come from: the rules of building, or an older map.

ghost use Rattle.std.specs.Prelude.{◌≡◌, true, ℕ, List, ◌≤◌, ◌^◌, length};
ghost use Rattle.sheet.specs.declared.Record.{Record};
ghost use Rattle.sheet.specs.Records.{records_of};
ghost use Rattle.cube.specs.declared.Root.{Root};
ghost use Rattle.cube.specs.Limits.{in_limits};
ghost use Rattle.cube.specs.Cubes.{root_cube};
ghost use Rattle.zonemap.specs.declared.Leaf.{Leaf};
ghost use Rattle.tape.specs.Lent.{work};
ghost use Rattle.tree.specs.Walk.{Ready, Left};

use colour::Entries;
use cube::Root;
use tape::{Tape, Word};
use tree::Sink;

// What `over_root` builds a map from. The words are those of `started`, so a source can count on their number.
pub trait Source {
    // The leaves of its map, for the records of a sheet, over a root.
    ghost leaves: { Self → List Record → Root → List Leaf };

    // That it has leaves over a root.
    ghost suits: { Self → Root → Type 0 };

    // Hands them to a sink.
    fn give<S: Sink>(
        &self,
        s: &[u8],
        words: &mut [Word],
        known: &mut Entries,
        t: Tape,
        root: Root,
        sink: &mut S,
    )
        requires within { in_limits root ≡ true }
        requires suited { suits self.now root }
        requires ready { Ready (records_of s.now) root.d (root_cube root) (work words.old known.old) t }
        requires long { length words.old ≡ 640 }
        requires room { S.room sink.old (length (leaves self.now (records_of s.now) root)) }
        ensures work { Left (records_of s.now) t (work words.old known.old) (work words.new known.new) }
        ensures taken { sink.new ≡ S.after sink.old (leaves self.now (records_of s.now) root) };

    // No root in limits has room for more.
    ghost few: { (from : Self) (rs : List Record) (root : Root) → in_limits root ≡ true → suits from root → length (leaves from rs root) ≤ 2 ^ 30 };
}

// A source that takes words in any number, and so is a `Source` too. The two differ in the clause `long` alone. Each has its own items, so that whoever implements
// it writes one impl.
pub trait LentSource {
    // The leaves of its map, for the records of a sheet, over a root.
    ghost leaves: { Self → List Record → Root → List Leaf };

    // That it has leaves over a root.
    ghost suits: { Self → Root → Type 0 };

    // Hands them to a sink.
    fn give<S: Sink>(
        &self,
        s: &[u8],
        words: &mut [Word],
        known: &mut Entries,
        t: Tape,
        root: Root,
        sink: &mut S,
    )
        requires within { in_limits root ≡ true }
        requires suited { suits self.now root }
        requires ready { Ready (records_of s.now) root.d (root_cube root) (work words.old known.old) t }
        requires room { S.room sink.old (length (leaves self.now (records_of s.now) root)) }
        ensures work { Left (records_of s.now) t (work words.old known.old) (work words.new known.new) }
        ensures taken { sink.new ≡ S.after sink.old (leaves self.now (records_of s.now) root) };

    // No root in limits has room for more.
    ghost few: { (from : Self) (rs : List Record) (root : Root) → in_limits root ≡ true → suits from root → length (leaves from rs root) ≤ 2 ^ 30 };
}

impl<L: LentSource> Source for L {
    ghost leaves = { L.leaves };

    ghost suits = { L.suits };

    fn give<S: Sink>(
        &self,
        s: &[u8],
        words: &mut [Word],
        known: &mut Entries,
        t: Tape,
        root: Root,
        sink: &mut S,
    ) {
        LentSource::give(self, s, words, known, t, root, sink);
    }

    ghost few = { L.few };
}
