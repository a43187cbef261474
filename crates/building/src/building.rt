// The public calls: the replies in order of test, then the map.

ghost use Rattle.std.specs.Prelude.{◌≡◌, true, [], Ok, length};
ghost use Rattle.sheet.specs.Records.{records_of};
ghost use Rattle.sheet.specs.Check.{check_of};
ghost use Rattle.records.specs.Offsets.{Offsets};
ghost use Rattle.cube.specs.Limits.{in_limits};
ghost use Rattle.cube.specs.Cubes.{root_cube};
ghost use Rattle.colour.specs.Entries.{first_past};
ghost use Rattle.zonemap.specs.Map.{map_of};
ghost use Rattle.tape.specs.Lent.{work};
ghost use Rattle.tree.specs.Walk.{Ready};
ghost use Rattle.building.specs.Build.{outcome, stored_of, over_root_with, build_of};

use crate::Source;
use crate::fresh::Fresh;
use colour::Entries;
use cube::Root;
use replies::Refusal;
use tape::{Tape, Word};
use tree::{Counter, Writer};

// Builds the zone map of a sheet over a root at the start of `out`. A refusal leaves `out` unchanged. (The root comes as five numbers, as C passes them to
// `zone_build`.)
pub fn build(
    sheet: &[u8],
    x: i32,
    y: i32,
    z: i32,
    k: u8,
    d: u8,
    out: &mut [u8],
) -> Result<usize, Refusal>
    ensures { outcome result out.new ≡ build_of sheet.now (record { x = x; y = y; z = z; k = k; d = d }) out.old }
{
    let root = Root { x, y, z, k, d };
    let count = sheet::check(sheet)?;
    over_root(sheet, count, &Fresh, root, out)
}

// Replies 6 and 7 for a sheet that was found good, then the rest, with leaves from a source. Only the root can be refused for the limit: if no record passes it
// there, none does over a smaller cube.
pub fn over_root<L: Source>(
    sheet: &[u8],
    count: usize,
    from: &L,
    root: Root,
    out: &mut [u8],
) -> Result<usize, Refusal>
    requires good { check_of sheet.now ≡ Ok count }
    requires suited { in_limits root ≡ true → L.suits from.now root }
    ensures { outcome result out.new ≡ over_root_with (λ rs r. map_of r (L.leaves from.now rs r)) (records_of sheet.now) root out.old }
{
    if !root.is_within() {
        return Err(Refusal::Limits);
    }
    let mut room = [0u16; 256];
    let offsets = &mut room[..count];
    records::list_offsets(sheet, offsets);
    colour::judge(sheet, offsets, root.cube(), (count - 1) as u8).map_err(Refusal::OverRoot)?;
    started(sheet, offsets, from, root, out)
}

// The walks below the root share one memory, which lies here. What reply 7 needed is gone from the stack by then.
fn started<L: Source>(
    sheet: &[u8],
    offsets: &[u16],
    from: &L,
    root: Root,
    out: &mut [u8],
) -> Result<usize, Refusal>
    requires offsets { Offsets offsets.now sheet.now }
    requires good { check_of sheet.now ≡ Ok (length offsets.now) }
    requires within { in_limits root ≡ true }
    requires none_past { first_past (records_of sheet.now) (root_cube root) ≡ [] }
    requires suited { L.suits from.now root }
    ensures { outcome result out.new ≡ stored_of (map_of root (L.leaves from.now (records_of sheet.now) root)) out.old }
{
    let mut words = [Word::EMPTY; 640];
    let mut known = Entries::blank();
    let t = tape::start(sheet, offsets, &mut words, &mut known);
    stored(sheet, &mut words, &mut known, t, from, root, out)
}

// Reply 8, or the map: the leaves are counted, then written.
fn stored<L: Source>(
    sheet: &[u8],
    words: &mut [Word],
    known: &mut Entries,
    t: Tape,
    from: &L,
    root: Root,
    out: &mut [u8],
) -> Result<usize, Refusal>
    requires within { in_limits root ≡ true }
    requires suited { L.suits from.now root }
    requires long { length words.old ≡ 640 }
    requires ready { Ready (records_of sheet.now) root.d (root_cube root) (work words.old known.old) t }
    ensures { outcome result out.new ≡ stored_of (map_of root (L.leaves from.now (records_of sheet.now) root)) out.old }
{
    let mut counter = Counter::new();
    from.give(sheet, words, known, t, root, &mut counter);
    let n = counter.leaves;
    let need = zonemap::HEADER + 3 * n;
    if out.len() < need {
        return Err(Refusal::Short(need));
    }
    zonemap::put_header(out, root, n as u32);
    let mut writer = Writer {
        out,
        at: zonemap::HEADER,
    };
    from.give(sheet, words, known, t, root, &mut writer);
    Ok(need)
}
