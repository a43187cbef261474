// The public call: the replies in order of test, then the new map.

ghost use Rattle.std.specs.Prelude.{◌≡◌, []};
ghost use Rattle.cube.specs.declared.Point.{Point};
ghost use Rattle.building.specs.Build.{outcome};
ghost use Rattle.pair.specs.Pairs.{pair_refusal, pair_of};
ghost use Rattle.refine.specs.Refine.{refine_of};

use crate::deepening::Deeper;
use cube::Point;
use pair::Pair;
use replies::Refusal;

// Refines a map to depth d at the start of `out`. A refusal leaves `out` unchanged. The leaf that opening finds is not used, so any point will do.
pub fn refine(sheet: &[u8], map: &[u8], d: u8, out: &mut [u8]) -> Result<usize, Refusal>
    ensures { outcome result out.new ≡ refine_of sheet.now map.now d out.old }
{
    let pair = pair::open(sheet, map, Point { x: 0, y: 0, z: 0 })?;
    deepen(sheet, map, pair, d, out)
}

// Reply 6 for a smaller depth, then the rest, which begins with reply 6 for an illegal one.
fn deepen(sheet: &[u8], map: &[u8], pair: Pair, d: u8, out: &mut [u8]) -> Result<usize, Refusal>
    requires opens { pair_refusal sheet.now map.now ≡ [] }
    requires opened { ((p : Point) × (pair ≡ pair_of sheet.now map.now p)) }
    ensures { outcome result out.new ≡ refine_of sheet.now map.now d out.old }
{
    if d < pair.root.d {
        return Err(Refusal::Limits);
    }
    let root = pair.root.at_depth(d);
    building::over_root(sheet, pair.count, &Deeper { map }, root, out)
}
