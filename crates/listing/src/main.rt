// The listing program: reads a root's X, Y, Z, k and d and a zone sheet from standard input, builds the zone map, and writes it as text.

#![tactic(auto)]

ghost use Rattle.std.specs.Prelude.{◌≡◌, Bool, [], ℕ, ◌≤◌, length};
ghost use Rattle.zonemap.specs.Opening.{root_of, fault_of};

use cube::Root;
use replies::Refusal;
use zonemap::Met;

// Where the sheet begins in the input.
const SHEET_FROM: usize = 14;

fn main(rt: HostRuntime) {
    // One byte more than the longest input allowed, so that a longer one is noticed.
    let mut input = [0u8; 4097];
    let n = buffers::read_full(&mut rt.stdin(), &mut input);
    if n < SHEET_FROM || n > 4096 {
        refuse(&rt, Refusal::Length);
        return;
    }
    list(&rt, &input[..n]);
}

// The root that the input begins with.
fn root_of(s: &[u8]) -> Root
    requires { 14 ≤ length s.now }
{
    Root {
        x: bigendian::i32_at(s, 0),
        y: bigendian::i32_at(s, 4),
        z: bigendian::i32_at(s, 8),
        k: s[12],
        d: s[13],
    }
}

// Builds the map that the input asks for, and writes it, or the refusal.
fn list(rt: &impl Print, s: &[u8])
    requires { 14 ≤ length s.now }
{
    let root = root_of(s);
    let mut map = [0u8; 65536];
    match building::build(
        &s[SHEET_FROM..],
        root.x,
        root.y,
        root.z,
        root.k,
        root.d,
        &mut map,
    ) {
        Ok(n) => {
            leaves(rt, &map[..n], root);
        }
        Err(why) => {
            refuse(rt, why);
        }
    }
}

// Writes the first line: the root, the depth and the number of leaves.
fn head(rt: &impl Print, root: Root, leaves: i64) {
    let _word = print!(rt; "map ");
    line(
        rt,
        [
            root.x as i64,
            root.y as i64,
            root.z as i64,
            root.k as i64,
            root.d as i64,
            leaves,
        ],
    );
}

// Writes a map of this root that opens, whichever faces its leaves name: the first line, then one line per leaf.
fn leaves(rt: &impl Print, map: &[u8], root: Root)
    requires opens { ((named : ℕ → Bool) × (fault_of named map.now ≡ [])) }
    requires root { root ≡ root_of map.now }
{
    let count = zonemap::leaf_count(map);
    head(rt, root, count as i64);
    let mut place = 0;
    // By number, since the offset of leaf i is asked for.
    for i in 0..count {
        let met = zonemap::meet(map, root, i, place);
        leaf(rt, met);
        place = met.next;
    }
}

// Writes the line of a leaf: its level, the low corner of its cube, its class and its face.
fn leaf(rt: &impl Print, met: Met) {
    let leaf = met.leaf;
    let cube = met.cube;
    line(
        rt,
        [
            leaf.level as i64,
            cube.x as i64,
            cube.y as i64,
            cube.z as i64,
            leaf.class as i64,
            leaf.face as i64,
        ],
    );
}

// Writes a line of six numbers.
fn line(rt: &impl Print, numbers: [i64; 6]) {
    let mut out = [0u8; 126];
    let end = text::put_line(&mut out, numbers);
    let _line = rt.write_all(&out[..end]);
}

// Writes `refused`, the code and the number. A reply's number is far below 2^63, so taking the remainder does not change it.
fn refuse(rt: &impl Print, why: Refusal) {
    let _word = print!(rt; "refused ");
    let mut out = [0u8; 42];
    let number = (why.number() % 9223372036854775808) as i64;
    let end = text::put_line(&mut out, [why.code() as i64, number]);
    let _line = rt.write_all(&out[..end]);
}
