// What is done at each cube of a walk. The words of its tapes and what is known of each record over the cube at hand are lent by the caller, since a panel has no
// heap.

ghost use Rattle.std.specs.Prelude.{◌≡◌, Ok, ◌≤◌, length};
ghost use Rattle.sheet.specs.Records.{records_of};
ghost use Rattle.sheet.specs.Check.{check_of};
ghost use Rattle.records.specs.Offsets.{Offsets};
ghost use Rattle.tape.specs.Memory.{state_in};
ghost use Rattle.tape.specs.Lent.{Lent, Carries, Starts, Stand, Stays};

use crate::{Tape, Word, listing, shortening};
use colour::{Entries, State};
use cube::Cube;

// The tape of a good sheet's records, at the end of the words, and their entries in place.
pub fn start(s: &[u8], offsets: &[u16], words: &mut [Word], known: &mut Entries) -> Tape
    requires offsets { Offsets offsets.now s.now }
    requires good { check_of s.now ≡ Ok (length offsets.now) }
    requires room { 256 ≤ length words.old }
    ensures lent { Lent (records_of s.now) known.new.bounds known.new.states }
    ensures starts { Starts (records_of s.now) words.new result }
{
    listing::place(s, offsets, known);
    let from = words.len() - 256;
    let mid = listing::list(s, offsets, words, from, false);
    let to = listing::list(s, offsets, words, mid, true);
    let solid = (offsets.len() - 1) as u8;
    Tape {
        from,
        mid,
        to,
        solid,
    }
}

// The state of a record over the cube at hand.
pub fn state(known: &Entries, a: u8) -> State
    ensures { result ≡ state_in known.now.states a }
{
    known.states[a as usize]
}

// The tape for the children of a cube over which the records of a tape have their states, `decided` of which are decided.
pub fn carry(
    s: &[u8],
    words: &mut [Word],
    known: &Entries,
    t: Tape,
    q: Cube,
    decided: usize,
    left: u8,
) -> Tape
    requires carries { Carries (records_of s.now) q words.old t }
    requires stand { Stand (records_of s.now) q words.old t known.now.states }
    ensures carries { Carries (records_of s.now) q words.new result }
    ensures stays { Stays t.from words.old words.new }
    ensures before { result.from ≤ t.from }
{
    let count = t.to - t.from;
    if t.from < count {
        return t;
    }
    if shortening::is_worth(t.from, count, decided, left) {
        return shortening::shorten(words, t, &known.states);
    }
    t
}
