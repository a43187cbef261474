// The public call: the replies in order of test, then the answer of the leaf that holds the position. It only reads its inputs.

ghost use Rattle.std.specs.Prelude.{◌≡◌, []};
ghost use Rattle.sheet.specs.Records.{records_of};
ghost use Rattle.records.specs.Offsets.{Offsets};
ghost use Rattle.cube.specs.Cubes.{root_cube};
ghost use Rattle.colour.specs.Entries.{first_past};
ghost use Rattle.pair.specs.Pairs.{pair_refusal, pair_of};
ghost use Rattle.lookup.specs.Lookup.{face_holds, side_of, answer_of, point_reply, lookup_of};
ghost use Rattle.lookup.specs.Inner.{Judgeable};

use crate::Answer;
use cube::Point;
use pair::Pair;
use replies::Refusal;
use zonemap::Leaf;

// Looks a position up in a zone map.
#[tactic(auto, using(cube::proofs::Passed::read_back, crate::proofs::Steps::shut))]
pub fn lookup(sheet: &[u8], map: &[u8], x: i32, y: i32, z: i32) -> Result<Answer, Refusal>
    ensures { result ≡ lookup_of sheet.now map.now (record { x = x; y = y; z = z }) }
{
    let p = Point { x, y, z };
    let pair = pair::open(sheet, map, p)?;
    over_root(sheet, map, pair, p)
}

// Reply 7, then the rest.
fn over_root(sheet: &[u8], map: &[u8], pair: Pair, p: Point) -> Result<Answer, Refusal>
    requires opens { pair_refusal sheet.now map.now ≡ [] }
    requires opened { pair ≡ pair_of sheet.now map.now p }
    ensures { result ≡ lookup_of sheet.now map.now p }
{
    let mut room = [0u16; 256];
    let offsets = &mut room[..pair.count];
    records::list_offsets(sheet, offsets);
    // Only the limit matters here, so any record will do.
    colour::judge(sheet, offsets, pair.root.cube(), 0).map_err(Refusal::OverRoot)?;
    at_point(sheet, offsets, map, pair, p)
}

// Reply 10, or the answer of the leaf that holds the point.
fn at_point(
    sheet: &[u8],
    offsets: &[u16],
    map: &[u8],
    pair: Pair,
    p: Point,
) -> Result<Answer, Refusal>
    requires offsets { Offsets offsets.now sheet.now }
    requires opens { pair_refusal sheet.now map.now ≡ [] }
    requires opened { pair ≡ pair_of sheet.now map.now p }
    requires limit { first_past (records_of sheet.now) (root_cube pair.root) ≡ [] }
    ensures { result ≡ point_reply (records_of sheet.now) map.now p }
{
    if !pair.root.cube().holds(p) {
        return Err(Refusal::NotInRoot);
    }
    let leaf = zonemap::leaf_at(map, pair.at);
    Ok(answer(sheet, offsets, leaf, p))
}

// The answer of a leaf at a point that it holds.
#[tactic(auto, unfolding(crate::specs::Lookup::answer_of))]
fn answer(sheet: &[u8], offsets: &[u16], leaf: Leaf, p: Point) -> Answer
    requires offsets { Offsets offsets.now sheet.now }
    requires judgeable { Judgeable (records_of sheet.now) p }
    ensures { result ≡ answer_of (records_of sheet.now) leaf p }
{
    match leaf.class {
        0 => Answer::Outside,
        1 => Answer::Inside,
        2 => side(face_holds(sheet, offsets, leaf.face, p)),
        3 => side(!face_holds(sheet, offsets, leaf.face, p)),
        _ => Answer::Undecided,
    }
}

fn side(holds: bool) -> Answer
    ensures { result ≡ side_of holds }
{
    if holds {
        Answer::Inside
    } else {
        Answer::Outside
    }
}

// Whether a point satisfies face f, by the bounds over the point alone. No record passes the limit there.
#[tactic(auto, using(crate::proofs::Steps::known_there), unfolding(crate::specs::Lookup::face_holds))]
fn face_holds(sheet: &[u8], offsets: &[u16], f: u8, p: Point) -> bool
    requires offsets { Offsets offsets.now sheet.now }
    requires judgeable { Judgeable (records_of sheet.now) p }
    ensures { result ≡ face_holds (records_of sheet.now) f p }
{
    colour::judge(sheet, offsets, p.cube(), f).is_ok_and(|state| state.is_in())
}
