// The zone map: its leaves and its bytes, written and read.

#![tactic(auto)]

mod opening;
mod walking;

ghost use Rattle.std.specs.Prelude.{◌≡◌, ◌+◌, ◌≤◌, ◌^◌, length};
ghost use Rattle.std.proofs.lemmas.List.Edits.{sets};
ghost use Rattle.zonemap.specs.Map.{header_size, leaf_bytes, corner_bytes, header_of};

use cube::{Cube, Root};
pub use opening::{find, leaf_at, open};
pub use walking::{leaf_count, meet};

// A leaf: its level, its class and its face number, as a map has them, good or not. So the class is a byte: `level_good` and `face_good` tell which is good.
#[derive(Clone, Copy, Debug, PartialEq, Eq)]
pub struct Leaf {
    pub level: u8,
    pub class: u8,
    pub face: u8,
}

// The root of a map that opens, with the offset of the leaf that holds a point.
#[derive(Clone, Copy, Debug, PartialEq, Eq)]
pub struct Found {
    pub root: Root,
    pub at: usize,
}

// A leaf of a map that opens, the cube at its place, and the place after it.
#[derive(Clone, Copy, Debug, PartialEq, Eq)]
pub struct Met {
    pub leaf: Leaf,
    pub cube: Cube,
    pub next: u32,
}

// The number of bytes before the leaves.
pub const HEADER: usize = 19;

pub const VERSION: u8 = 1;

// Writes the root's low corner to bytes 5 to 16.
fn put_corner(out: &mut [u8], root: Root)
    requires { 17 ≤ length out.old }
    ensures { out.new ≡ sets out.old 5 (corner_bytes root) }
{
    bigendian::put_i32(out, 5, root.x);
    bigendian::put_i32(out, 9, root.y);
    bigendian::put_i32(out, 13, root.z);
}

// Writes the bytes before the leaves.
pub fn put_header(out: &mut [u8], root: Root, leaves: u32)
    requires room { header_size ≤ length out.old }
    requires few { leaves ≤ 2 ^ 30 }
    ensures { out.new ≡ sets out.old 0 (header_of root leaves) }
{
    bigendian::put_u32(out, 0, 15 + 3 * leaves);
    out[4] = VERSION;
    put_corner(out, root);
    out[17] = root.k;
    out[18] = root.d;
}

// Writes a leaf's three bytes from `at` on, and returns the offset after them.
pub fn put_leaf(out: &mut [u8], at: usize, leaf: Leaf) -> usize
    requires { at + 3 ≤ length out.old }
    ensures { (result ≡ at + 3) × (out.new ≡ sets out.old at (leaf_bytes leaf)) }
{
    out[at] = leaf.level;
    out[at + 1] = leaf.class;
    out[at + 2] = leaf.face;
    at + 3
}
