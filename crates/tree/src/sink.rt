// Where the leaves of a walk go: one sink counts them, another writes them.

ghost use Rattle.std.specs.Prelude.{◌≡◌, false, true, ℕ, List, [], ◌∷◌, ◌≤◌, ◌^◌, length};
ghost use Rattle.zonemap.specs.declared.Leaf.{Leaf};
ghost use Rattle.tree.specs.Sinks.{SinkLaws, counted, IsCountable, counts, written, HasRoom, writes};

use zonemap::Leaf;

pub trait Sink {
    // What it is once it has taken these leaves, in their order.
    ghost after: { Self → List Leaf → Self };

    // That it has room for so many more.
    ghost room: { Self → ℕ → Type 0 };

    ghost laws: { SinkLaws after room };

    // Takes a leaf.
    fn put(&mut self, leaf: Leaf)
        requires { room self.old 1 }
        ensures { self.new ≡ after self.old (leaf ∷ []) };

    // Takes n leaves unseen, if it need not look at leaves, and returns whether it took them. The colours of those need not be worked out.
    fn take_unseen(&mut self, n: usize) -> bool
        requires { room self.old n }
        ensures taken { result ≡ true → (leaves : List Leaf) → length leaves ≡ n → self.new ≡ after self.old leaves }
        ensures untaken { result ≡ false → self.new ≡ self.old };
}

// Counts leaves.
#[derive(Drop)]
pub struct Counter {
    pub leaves: usize,
}

// Writes leaves into a buffer, from an offset on.
#[derive(Drop)]
pub struct Writer<'a> {
    pub out: &'a mut [u8],
    pub at: usize,
}

impl Counter {
    pub fn new() -> Counter
        ensures { result.leaves ≡ 0 }
    {
        Counter { leaves: 0 }
    }
}

impl Sink for Counter {
    ghost after = { counted };

    ghost room = { IsCountable };

    ghost laws = { counts };

    fn put(&mut self, _leaf: Leaf) {
        self.leaves += 1;
    }

    fn take_unseen(&mut self, n: usize) -> bool {
        self.leaves += n;
        true
    }
}

impl Sink for Writer<'_> {
    ghost after = { written };

    ghost room = { HasRoom };

    ghost laws = { writes };

    fn put(&mut self, leaf: Leaf) {
        self.at = zonemap::put_leaf(self.out, self.at, leaf);
    }

    // It writes each leaf, so it must look at all.
    fn take_unseen(&mut self, _n: usize) -> bool {
        false
    }
}
