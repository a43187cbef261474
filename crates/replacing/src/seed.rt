// The map of one gray leaf, from which a map is built.

ghost use Rattle.std.specs.Prelude.{◌≡◌, ◌≤◌, length};
ghost use Rattle.replacing.specs.Replace.{gray_map};

use cube::Root;
use zonemap::Leaf;

// Writes the map whose one leaf is the root, gray, into 22 bytes.
pub fn gray_map(root: Root, out: &mut [u8])
    requires { length out.old ≡ 22 }
    ensures { out.new ≡ gray_map root }
{
    let top = root.at_depth(0);
    zonemap::put_header(out, top, 1);
    let leaf = Leaf {
        level: 0,
        class: 4,
        face: 0,
    };
    let _end = zonemap::put_leaf(out, zonemap::HEADER, leaf);
}
