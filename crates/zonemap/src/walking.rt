// Walking over the leaves of a map that opens: each with its place and its cube.

ghost use Rattle.std.specs.Prelude.{◌≡◌, Bool, [], ℕ, ◌+◌, ◌≤◌, ◌<◌, length};
ghost use Rattle.zonemap.specs.Map.{header_size};
ghost use Rattle.zonemap.specs.Opening.{root_of, leaves_of, fault_of};
ghost use Rattle.zonemap.specs.Leaves.{nth_leaf, nth_place, nth_cube};

use crate::{Met, opening};
use cube::Root;

// The number of leaves.
pub fn leaf_count(map: &[u8]) -> usize
    requires { header_size ≤ length map.now }
    ensures { result ≡ length (leaves_of map.now) }
{
    (map.len() - crate::HEADER) / 3
}

// Leaf i, given its place: a walk starts with leaf 0 at place 0, and continues at `next`.
pub fn meet(map: &[u8], root: Root, i: usize, place: u32) -> Met
    requires opens { ((named : ℕ → Bool) × (fault_of named map.now ≡ [])) }
    requires its_root { root ≡ root_of map.now }
    requires among { i < length (leaves_of map.now) }
    requires its_place { place ≡ nth_place map.now i }
    ensures { result ≡ record { leaf = nth_leaf map.now i; cube = nth_cube map.now i; next = nth_place map.now (i + 1) } }
{
    let leaf = opening::leaf_at(map, crate::HEADER + 3 * i);
    Met {
        leaf,
        cube: root.cube_at(place, leaf.level),
        next: place + opening::eight_to(root.d - leaf.level),
    }
}
