// The faces among the records of a sheet.

ghost use Rattle.std.specs.Prelude.{◌≡◌, length};
ghost use Rattle.sheet.specs.Records.{records_of};
ghost use Rattle.records.specs.Faces.{is_face, Marks};

use crate::by_kind;
use sheet::{Cursor, Record};

fn is_face(r: Record) -> bool
    ensures { result ≡ is_face r }
{
    matches!(r, Record::Face(_, _))
}

// Whether each number is that of a face of the sheet. Any bytes do: each record is tested as it is read, and the first bad one ends them.
pub fn faces(s: &[u8]) -> [bool; 256]
    ensures { Marks result (records_of s.now) }
{
    let mut marks = [false; 256];
    let mut c = Cursor::start();
    for mark in marks.iter_mut() {
        let Ok((r, next)) = c.read(s) else {
            break;
        };
        *mark = is_face(r);
        c = next;
    }
    marks
}

// The same of a sheet that was checked and has `count` records, which are not tested again.
pub fn faces_among(s: &[u8], count: usize) -> [bool; 256]
    requires { count ≡ length (records_of s.now) }
    ensures { Marks result (records_of s.now) }
{
    let mut marks = [false; 256];
    let mut at = 3;
    for n in 0..count {
        let next = at + 1 + s[at] as usize;
        marks[n] = is_face(by_kind::record_at(s, at));
        at = next;
    }
    marks
}

#[cfg(test)]
mod tests {
    use super::*;

    // The step room has the faces 5 and 6. Cut inside of record 6, it has one, and cut in its first record none.
    #[test]
    fn marks_the_faces_of_any_bytes(rt: HostRuntime) {
        let room = [
            0, 29, 1, 1, 2, 1, 3, 5, 1, 0, 0, 0, 2, 3, 6, 0, 2, 3, 6, 1, 2, 2, 16, 3, 2, 16, 4, 3,
            17, 5, 6,
        ];
        for (bytes, five, six) in [(31, true, true), (26, true, false), (4, false, false)] {
            let mut want = [false; 256];
            want[5] = five;
            want[6] = six;
            assert_eq!(rt; faces(&room[..bytes]), want, "in {bytes} bytes");
        }
    }
}
