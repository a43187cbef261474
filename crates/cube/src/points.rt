// Points: whether a cube holds a point, and the place of a point in the root.

ghost use Rattle.std.specs.Prelude.{◌≡◌, true, ◌+◌, ◌*◌, ◌/◌, ◌%◌, ◌≤◌, ◌<◌, ◌^◌, nat_abs, ◌-ℤ◌, ◌≤ℤ◌};
ghost use Rattle.cube.specs.Limits.{in_limits};
ghost use Rattle.cube.specs.Cubes.{root_cube};
ghost use Rattle.cube.specs.Points.{axis_holds, holds_point, point_cube, place_by, place_of};

use crate::{Cube, Point, Root};

// Whether a coordinate lies between two planes, the high one left out. The high plane is computed in 64 bits, where the sum cannot wrap.
#[tactic(auto, unfolding(crate::specs::Points::axis_holds))]
fn axis_holds(low: i32, side: u32, v: i32) -> bool
    ensures { result ≡ axis_holds low side v }
{
    low <= v && (v as i64) < low as i64 + side as i64
}

// The child number of a smallest cube at the level with i levels below it.
fn child_number(x: u32, y: u32, z: u32, i: u8) -> u32
    requires { i < 10 }
    ensures { result ≡ x / 2 ^ i % 2 + 2 * (y / 2 ^ i % 2) + 4 * (z / 2 ^ i % 2) }
{
    (x >> i) % 2 + 2 * ((y >> i) % 2) + 4 * ((z >> i) % 2)
}

// The place of a smallest cube, from its low corner.
#[tactic(auto, using(crate::proofs::Places::place_steps))]
fn place_by(x: u32, y: u32, z: u32, d: u8) -> u32
    requires { d ≤ 10 }
    ensures { result ≡ place_by d x y z }
{
    let mut place = 0;
    for i in (0..d).rev() {
        place = 8 * place + child_number(x, y, z, i);
    }
    place
}

// The number of cubes of side 2^n between a low plane and a coordinate.
fn steps_to(low: i32, v: i32, n: u8) -> u32
    requires above { low ≤ℤ v }
    requires near { nat_abs (v -ℤ low) ≤ 2 ^ 21 }
    requires step_at_most_2_16 { n ≤ 16 }
    ensures { result ≡ nat_abs (v -ℤ low) / 2 ^ n }
{
    (v - low) as u32 >> n
}

impl Cube {
    // Whether a point lies in the cube, the high planes left out.
    #[tactic(auto, using(crate::proofs::Passed::read_back), unfolding(crate::specs::Points::holds_point))]
    pub fn holds(self, p: Point) -> bool
        ensures { result ≡ holds_point self p }
    {
        axis_holds(self.x, self.side, p.x)
            && axis_holds(self.y, self.side, p.y)
            && axis_holds(self.z, self.side, p.z)
    }
}

impl Point {
    // The point as a cube.
    #[tactic(auto, unfolding(crate::specs::Points::point_cube))]
    pub fn cube(self) -> Cube
        ensures { result ≡ point_cube self }
    {
        Cube {
            x: self.x,
            y: self.y,
            z: self.z,
            side: 0,
            level: 0,
        }
    }
}

impl Root {
    // The place of a point of the root.
    #[tactic(auto, using(crate::proofs::Limits::root_facts), unfolding(crate::specs::Points::place_of))]
    pub fn place(self, p: Point) -> u32
        requires within { in_limits self ≡ true }
        requires inside { holds_point (root_cube self) p ≡ true }
        ensures { result ≡ place_of self p }
    {
        let n = self.k - self.d;
        let x = steps_to(self.x, p.x, n);
        let y = steps_to(self.y, p.y, n);
        let z = steps_to(self.z, p.z, n);
        place_by(x, y, z, self.d)
    }
}
