// A coordinate of well-known binary (document 02, Paper 9): the whole number in range that a float is, if it is one.
#![tactic(auto)]

ghost use Rattle.std.specs.Prelude.{◌≡◌, ◌&&◌, leb, nat_abs};
ghost use lib.Ieee.{eq, of_int, binary64};
ghost use Rattle.plane.specs.Plane.{limit};
ghost use Rattle.wkb_coordinate.specs.Coordinate.{coordinate_of};

// A coordinate that was read: a whole number in range, or the number that is not whole or out of range.
#[derive(Clone, Copy)]
pub enum Coordinate {
    Whole(i32),
    Other(f64),
}

// 2^52 + 2^24: a float just above 2^52 has no fraction, and the last of its bits say how far above it is.
const RAISE: f64 = 4_503_599_644_147_712.0;

// The whole number that a float is, if it is one in range, by one sum: no clause says so, since it is tested whether it is.
fn likely(x: f64) -> i32 {
    let bits = std::num::f64_to_bits_with_nan(x + RAISE);
    (bits % 67_108_864) as i32 - 16_777_216
}

// Is a float this number, and is that in range?
fn is_whole(x: f64, n: i32) -> bool
    ensures { result ≡ (eq (of_int binary64 n) x && leb (nat_abs n) limit) }
{
    n as f64 == x && plane::is_coordinate(n, plane::LIMIT as u32)
}

impl From<f64> for Coordinate {
    ghost from_gives = { λ x coordinate. coordinate ≡ coordinate_of x };

    // The cut drops what is behind the point and stops at the ends of 32 bits: what it alters is not equal to the float, or is out of range.
    fn from(x: f64) -> Coordinate {
        let near = likely(x);
        if is_whole(x, near) {
            return Coordinate::Whole(near);
        }
        let n = std::num::saturating_f64_to_i32(x);
        if is_whole(x, n) {
            Coordinate::Whole(n)
        } else {
            Coordinate::Other(x)
        }
    }
}
