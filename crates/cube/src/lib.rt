// The root and its depth, the cubes it is split into, and its points.

#![tactic(auto)]

mod points;

ghost use Rattle.std.specs.Prelude.{◌≡◌, true, ◌+◌, ◌/◌, ◌%◌, ◌<◌, ◌≤◌, ◌^◌, pos, nat_abs, ◌+ℤ◌};
ghost use Rattle.cube.specs.Limits.{axis_fits, sizes_fit, in_limits, at_depth, Near};
ghost use Rattle.cube.specs.Cubes.{root_cube, axis_number, half, child_of, corner_of, cube_at};

// The root's low corner x, y, z, its side 2^k, and the depth d.
#[derive(Clone, Copy, Debug, PartialEq, Eq)]
pub struct Root {
    pub x: i32,
    pub y: i32,
    pub z: i32,
    pub k: u8,
    pub d: u8,
}

// A cube by its low corner, its side and its level.
#[derive(Clone, Copy, Debug, PartialEq, Eq)]
pub struct Cube {
    pub x: i32,
    pub y: i32,
    pub z: i32,
    pub side: u32,
    pub level: u8,
}

// A whole point.
#[derive(Clone, Copy, Debug, PartialEq, Eq)]
pub struct Point {
    pub x: i32,
    pub y: i32,
    pub z: i32,
}

// An axis. Its number in the definitions is 0, 1 or 2, and a child number has its half on that axis in that bit.
#[derive(Clone, Copy, Debug, PartialEq, Eq)]
enum Axis {
    X,
    Y,
    Z,
}

// Whether both planes of an axis lie in -2^20 to 2^20. The high one is computed in 64 bits, where the sum cannot wrap.
#[tactic(auto, unfolding(crate::specs::Limits::axis_fits))]
fn axis_fits(low: i32, side: u32) -> bool
    ensures { result ≡ axis_fits low side }
{
    -1048576 <= low && low as i64 + side as i64 <= 1048576
}

#[tactic(auto, unfolding(crate::specs::Limits::sizes_fit))]
fn sizes_fit(k: u8, d: u8) -> bool
    ensures { result ≡ sizes_fit k d }
{
    k <= 16 && d <= 10 && d <= k
}

// The side 2^n.
fn two_to(n: u8) -> u32
    requires { n ≤ 16 }
    ensures { result ≡ 2 ^ n }
{
    1u32 << n
}

// A low coordinate plus an offset.
fn moved(low: i32, by: u32) -> i32
    requires { nat_abs low + by ≤ 2 ^ 21 }
    ensures { result ≡ low +ℤ pos by }
{
    low + by as i32
}

// The half of child n on an axis.
fn half_of(axis: Axis, n: u8) -> u32
    ensures { result ≡ half (axis_number axis) n }
{
    ((n >> (axis as u8)) % 2) as u32
}

// The child number with i others below it in a place.
#[tactic(auto, using(crate::proofs::Corners::digit_is))]
fn digit(place: u32, i: u8) -> u8
    requires { i < 10 }
    ensures { result ≡ place / 8 ^ i % 8 }
{
    ((place >> (3 * i)) % 8) as u8
}

// The low corner of the cube at a place, along one axis, counted in smallest cubes.
#[tactic(auto, using(crate::proofs::Corners::corner_steps))]
fn corner(axis: Axis, d: u8, place: u32) -> u32
    requires { d ≤ 10 }
    ensures { result ≡ corner_of (axis_number axis) d place }
{
    let mut c = 0;
    for i in (0..d).rev() {
        c = 2 * c + half_of(axis, digit(place, i));
    }
    c
}

impl Root {
    // Whether root and depth are in limits.
    #[tactic(auto, unfolding(crate::specs::Limits::in_limits, crate::specs::Limits::sizes_fit))]
    pub fn is_within(self) -> bool
        ensures { result ≡ in_limits self }
    {
        if !sizes_fit(self.k, self.d) {
            return false;
        }
        let side = two_to(self.k);
        axis_fits(self.x, side) && axis_fits(self.y, side) && axis_fits(self.z, side)
    }

    // The same root at another depth.
    pub fn at_depth(self, d: u8) -> Root
        ensures { result ≡ at_depth d self }
    {
        Root { d, ..self }
    }

    // The root as a cube.
    #[tactic(auto, unfolding(crate::specs::Cubes::root_cube))]
    pub fn cube(self) -> Cube
        requires { self.k ≤ 16 }
        ensures { result ≡ root_cube self }
    {
        Cube {
            x: self.x,
            y: self.y,
            z: self.z,
            side: two_to(self.k),
            level: 0,
        }
    }

    // The cube of a level at a place.
    #[tactic(auto, using(crate::proofs::Cubes::at_facts), unfolding(crate::specs::Cubes::cube_at, crate::specs::Cubes::low_at))]
    pub fn cube_at(self, place: u32, level: u8) -> Cube
        requires root_in_limits { in_limits self ≡ true }
        requires level_within_depth { level ≤ self.d }
        ensures { result ≡ cube_at self place level }
    {
        let unit = two_to(self.k - self.d);
        Cube {
            x: moved(self.x, corner(Axis::X, self.d, place) * unit),
            y: moved(self.y, corner(Axis::Y, self.d, place) * unit),
            z: moved(self.z, corner(Axis::Z, self.d, place) * unit),
            side: two_to(self.k - level),
            level,
        }
    }
}

impl Cube {
    // Child n: half the side, one level down.
    #[tactic(auto, unfolding(crate::specs::Cubes::child_of))]
    pub fn child(self, n: u8) -> Cube
        requires near { Near 1 self }
        requires octant { n < 8 }
        ensures { result ≡ child_of self n }
    {
        let side = self.side / 2;
        Cube {
            x: moved(self.x, half_of(Axis::X, n) * side),
            y: moved(self.y, half_of(Axis::Y, n) * side),
            z: moved(self.z, half_of(Axis::Z, n) * side),
            side,
            level: self.level + 1,
        }
    }
}
