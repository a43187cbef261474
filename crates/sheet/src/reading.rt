// Reading records one after the other.

ghost use Rattle.std.specs.Prelude.{◌≡◌};
ghost use Rattle.sheet.specs.Table.{read_at};
ghost use Rattle.sheet.specs.Records.{start, stop_of};

use crate::{Cursor, Record, table};

impl Cursor {
    // The cursor at the first record of a sheet.
    pub fn start() -> Cursor
        ensures { result ≡ start }
    {
        Cursor { at: 3, left: 256 }
    }

    // The record that the cursor is at, with the cursor after it, or the offset at which it is refused. Made part of each loop that calls it: as a call of its own,
    // it would pack the record and the cursor into words that the loop takes apart again, and `stop` would make records that it does not use.
    #[inline(always)]
    pub fn read(self, s: &[u8]) -> Result<(Record, Cursor), usize>
        ensures { result ≡ read_at s.now self }
    {
        let at = self.at;
        if self.left == 0 || s.len() <= at {
            return Err(at);
        }
        let size = s[at] as usize;
        if s.len() - at <= size {
            return Err(at);
        }
        let r = table::row_at(s, at, size).ok_or(at)?;
        let next = Cursor {
            at: at + 1 + size,
            left: self.left - 1,
        };
        Ok((r, next))
    }
}

// Where reading stops: at the end of the sheet, or at the first refused record.
pub fn stop(s: &[u8]) -> usize
    ensures { result ≡ stop_of s.now }
{
    let mut c = Cursor::start();
    loop {
        match c.read(s) {
            Ok((_, next)) => c = next,
            Err(at) => return at,
        }
    }
}
