// The offset of each record of a sheet, computed once, so that the loop over the records has no serial dependency.

ghost use Rattle.std.specs.Prelude.{◌≡◌, length};
ghost use Rattle.sheet.specs.Records.{records_of};
ghost use Rattle.records.specs.Offsets.{Offsets};

// Lists the offset of each record of the sheet, in a list that has one place for each.
pub fn list_offsets(s: &[u8], offsets: &mut [u16])
    requires { length offsets.old ≡ length (records_of s.now) }
    ensures { Offsets offsets.new s.now }
{
    let mut at = 3;
    for offset in offsets.iter_mut() {
        let next = at + 1 + s[at] as usize;
        *offset = at as u16;
        at = next;
    }
}
