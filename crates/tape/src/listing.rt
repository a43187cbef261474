// The tape of a sheet's own records, which is what is carried to the root, and the places of their entries.

ghost use Rattle.std.specs.Prelude.{◌≡◌, ◌+◌, ◌≤◌, ◌^◌, nat_abs, length};
ghost use Rattle.sheet.specs.Records.{records_of};
ghost use Rattle.records.specs.Offsets.{Offsets};
ghost use Rattle.carried.specs.Words.{chosen};
ghost use Rattle.tape.specs.Listing.{listed_of, start_of, Listed, Placed};

use crate::{Word, words};
use colour::{Entries, State};
use interval::Interval;
use sheet::Record;

// Lists the words of the logical records, or of the arithmetic ones but constants, from `from` on, and returns the place after them. (`listed_of` takes the same
// choice; a closure for it would have to be proved to be that.)
pub fn list(s: &[u8], offsets: &[u16], tape: &mut [Word], from: usize, logical: bool) -> usize
    requires offsets { Offsets offsets.now s.now }
    requires room { from + length (chosen (listed_of logical) (records_of s.now) (length (records_of s.now))) ≤ length tape.old }
    ensures { Listed (chosen (listed_of logical) (records_of s.now) (length (records_of s.now))) from tape.old tape.new result }
{
    let mut to = from;
    for (n, at) in offsets.iter().enumerate() {
        let r = records::record_at(s, *at as usize);
        let Some(w) = words::word_of(r, n as u8) else {
            continue;
        };
        if w.kind.is_logical() != logical {
            continue;
        }
        tape[to] = w;
        to += 1;
    }
    to
}

// The number that a record's bounds begin as: that of a constant, otherwise 0.
fn constant(r: Record) -> i64
    ensures { (result ≡ start_of r) × (nat_abs result ≤ 2 ^ 31) }
{
    match r {
        Record::Constant(c) => c as i64,
        _ => 0,
    }
}

// Puts the entries of constants in place; of the other records nothing is known.
pub fn place(s: &[u8], offsets: &[u16], known: &mut Entries)
    requires offsets { Offsets offsets.now s.now }
    ensures { Placed (records_of s.now) known.new.bounds known.new.states }
{
    for (n, at) in offsets.iter().enumerate() {
        let c = constant(records::record_at(s, *at as usize));
        known.bounds[n] = Interval { low: c, high: c };
        known.states[n] = State::Mixed;
    }
}
