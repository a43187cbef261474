// Opening a map with its sheet: the sheet is checked, then the map is opened with the sheet's faces.

ghost use Rattle.std.specs.Prelude.{◌≡◌};
ghost use Rattle.pair.specs.Pairs.{opened_of};

use crate::Pair;
use cube::Point;
use replies::Refusal;
use zonemap::Found;

// Opens a map with its sheet, and finds the leaf that holds a point. The sheet's own refusals come first.
#[tactic(auto, unfolding(crate::specs::Pairs::opened_of, crate::specs::Pairs::pair_refusal))]
pub fn open(sheet: &[u8], map: &[u8], p: Point) -> Result<Pair, Refusal>
    ensures { result ≡ opened_of sheet.now map.now p }
{
    let count = sheet::check(sheet)?;
    let faces = records::faces_among(sheet, count);
    let Found { root, at } = zonemap::find(map, &faces, p).map_err(Refusal::Map)?;
    Ok(Pair { count, root, at })
}
