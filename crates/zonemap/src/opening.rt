// Opening a map: the tests of its bytes, and the leaf that holds a place, in one scan.

ghost use Rattle.std.specs.Prelude.{◌≡◌, true, cond, ◌&&◌, [], ◌+◌, ◌-◌, ◌*◌, ◌%◌, ◌≤◌, ◌<◌, ◌^◌, eqb, leb, length, Err, Ok, Some, None};
ghost use Rattle.integers.specs.First.{on_first};
ghost use Rattle.cube.specs.Limits.{in_limits};
ghost use Rattle.zonemap.specs.Opening.{length_good, root_of, leaf_in, leaves_of, level_good, face_good, leaf_good, size_of, leaves_fault, header_fault, leaf_at, place_or_first, found_of, open_of};
ghost use Rattle.zonemap.specs.Map.{header_size};
ghost use Rattle.zonemap.specs.Inner.{marked};

use crate::{Found, Leaf, walking};
use cube::{Point, Root};
use replies::Refusal;

// Whether the length agrees and is 15 + 3n.
#[tactic(auto, unfolding(crate::specs::Opening::length_good))]
fn length_is_good(map: &[u8]) -> bool
    ensures { result ≡ length_good map.now }
{
    if map.len() < crate::HEADER {
        return false;
    }
    let follow = bigendian::u32_at(map, 0) as usize;
    follow + 4 == map.len() && follow % 3 == 0
}

// The root, from a map's bytes 5 to 18.
fn root(map: &[u8]) -> Root
    requires { header_size ≤ length map.now }
    ensures { result ≡ root_of map.now }
{
    Root {
        x: bigendian::i32_at(map, 5),
        y: bigendian::i32_at(map, 9),
        z: bigendian::i32_at(map, 13),
        k: map[17],
        d: map[18],
    }
}

// The root of a map, or the first fault in the bytes before its leaves.
#[tactic(auto, using(crate::proofs::Tests::length_room), unfolding(crate::specs::Opening::header_fault))]
fn read_header(map: &[u8]) -> Result<Root, usize>
    ensures { result ≡ on_first (header_fault map.now) Err (Ok (root_of map.now)) }
{
    if !length_is_good(map) {
        return Err(0);
    }
    if map[4] != crate::VERSION {
        return Err(4);
    }
    let r = root(map);
    if !r.is_within() {
        return Err(5);
    }
    Ok(r)
}

// The leaf in the three bytes from offset `at` on.
#[tactic(auto, unfolding(crate::specs::Opening::leaf_in))]
pub fn leaf_at(map: &[u8], at: usize) -> Leaf
    requires { at + 3 ≤ length map.now }
    ensures { result ≡ leaf_in map.now at }
{
    Leaf {
        level: map[at],
        class: map[at + 1],
        face: map[at + 2],
    }
}

// 8 to the power n: the number of smallest cubes in a cube with n levels below it.
#[tactic(auto, using(crate::proofs::Powers::shifted))]
pub fn eight_to(n: u8) -> u32
    requires { n ≤ 10 }
    ensures { result ≡ 8 ^ n }
{
    1u32 << (3 * n)
}

// Level at most d, class at most 4, gray only at level d.
#[tactic(auto, unfolding(crate::specs::Opening::level_good))]
fn level_is_good(d: u8, leaf: Leaf) -> bool
    ensures { result ≡ level_good d leaf }
{
    match leaf.class {
        0..=3 => leaf.level <= d,
        4 => leaf.level == d,
        _ => false,
    }
}

// Face 0 unless class 2 or 3, and then a marked one.
#[tactic(auto, unfolding(crate::specs::Opening::face_good))]
fn face_is_good(faces: &[bool; 256], leaf: Leaf) -> bool
    ensures { result ≡ face_good (marked faces.now) leaf }
{
    match leaf.class {
        2 | 3 => faces[leaf.face as usize],
        _ => leaf.face == 0,
    }
}

// The size of a cube with n levels below it, if it can be at `place`.
#[tactic(auto, using(crate::proofs::Powers::power_above, crate::proofs::Powers::power_below))]
fn size_in_place(d: u8, place: u32, n: u8) -> Option<u32>
    requires depth { d ≤ 10 }
    requires near { place ≤ 2 ^ 30 }
    requires levels { n ≤ 10 }
    ensures { result ≡ cond (eqb (place % 8 ^ n) 0 && leb (place + 8 ^ n) (8 ^ d)) (Some (8 ^ n)) None }
{
    let size = eight_to(n);
    if place % size == 0 && place + size <= eight_to(d) {
        Some(size)
    } else {
        None
    }
}

// The size of a leaf, if it is good at `place`.
#[tactic(auto, unfolding(crate::specs::Opening::leaf_good, crate::specs::Opening::place_good, crate::specs::Opening::level_good))]
fn good_size(faces: &[bool; 256], d: u8, place: u32, leaf: Leaf) -> Option<u32>
    requires depth { d ≤ 10 }
    requires near { place ≤ 2 ^ 30 }
    ensures { result ≡ cond (leaf_good (marked faces.now) d place leaf) (Some (size_of d leaf)) None }
{
    if level_is_good(d, leaf) && face_is_good(faces, leaf) {
        size_in_place(d, place, d - leaf.level)
    } else {
        None
    }
}

// The offset of the leaf that holds place m, or of the first fault in the leaves. A terminal leaf may name the faces that are marked.
fn scan(map: &[u8], faces: &[bool; 256], d: u8, m: u32) -> Result<usize, usize>
    requires depth { d ≤ 10 }
    requires header { header_size ≤ length map.now }
    requires whole { length map.now % 3 ≡ 1 }
    requires inside { m < 8 ^ d }
    ensures { result ≡ on_first (leaves_fault (marked faces.now) d 0 header_size (leaves_of map.now)) Err (Ok (header_size + 3 * leaf_at d m 0 (leaves_of map.now))) }
{
    let mut place: u32 = 0;
    let mut found: usize = crate::HEADER;
    // Not a `for`: the last leaf ends where the map does, and one number less in the loop is a fifth of the time of a lookup.
    let mut at: usize = crate::HEADER;
    while at < map.len() {
        let size = good_size(faces, d, place, leaf_at(map, at)).ok_or(at)?;
        // The leaf that holds place m is the last one whose place is not past m.
        if place <= m {
            found = at;
        }
        place += size;
        at += 3;
    }
    if place < eight_to(d) {
        return Err(at);
    }
    Ok(found)
}

// The place of a point, or the first place for a point outside the root, which has none.
#[tactic(auto, unfolding(crate::specs::Opening::place_or_first))]
fn place_or_first(root: Root, p: Point) -> u32
    requires { in_limits root ≡ true }
    ensures { result ≡ place_or_first root p }
{
    if root.cube().holds(p) {
        root.place(p)
    } else {
        0
    }
}

// Opens a map, whose terminal leaves may name the faces that are marked, and finds the leaf that holds a point, in one scan; or the offset of the map's first
// fault.
#[tactic(auto, unfolding(crate::specs::Opening::found_of, crate::specs::Opening::fault_of))]
pub fn find(map: &[u8], faces: &[bool; 256], p: Point) -> Result<Found, usize>
    ensures { result ≡ found_of (marked faces.now) map.now p }
{
    let root = read_header(map)?;
    // The leaves are tested wherever the point is, so for one outside the root the scan looks for the first place.
    let at = scan(map, faces, root.d, place_or_first(root, p))?;
    Ok(Found { root, at })
}

// Opens a map whose terminal leaves may name any face, and returns the number of its leaves. The leaf that is found is not used, so any point will do.
pub fn open(map: &[u8]) -> Result<usize, Refusal>
    ensures { result ≡ open_of map.now }
{
    let every_face = [true; 256];
    find(map, &every_face, Point { x: 0, y: 0, z: 0 }).map_err(Refusal::Map)?;
    Ok(walking::leaf_count(map))
}
