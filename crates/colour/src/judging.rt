// All records over a cube.

ghost use Rattle.std.specs.Prelude.{◌≡◌};
ghost use Rattle.sheet.specs.Records.{records_of};
ghost use Rattle.records.specs.Offsets.{Offsets};
ghost use Rattle.cube.specs.Limits.{Near};
ghost use Rattle.colour.specs.Entries.{judged_of};

use crate::{Entries, State, rules};
use cube::Cube;
use replies::Over;

// The state of record `which` over a cube, or the first of the sheet's records whose bounds pass the limit. The bounds are filled in place, since copying them
// for each record would cost more than the rules.
pub fn judge(s: &[u8], offsets: &[u16], q: Cube, which: u8) -> Result<State, Over>
    requires offsets { Offsets offsets.now s.now }
    requires near { Near 0 q }
    ensures { result ≡ judged_of (records_of s.now) q which }
{
    let mut known = Entries::blank();
    for (n, at) in offsets.iter().enumerate() {
        let index = n as u8;
        let r = records::record_at(s, *at as usize);
        let bounds = rules::bounds(r, q, &known).map_err(|end| Over { index, end })?;
        let state = rules::state(r, index, &known);
        known.bounds[n] = bounds;
        known.states[n] = state;
    }
    Ok(known.states[which as usize])
}
