// The fields of well-known binary, low byte first, at the end of what is written so far.
ghost use Rattle.std.specs.Prelude.{◌≡◌, ◌++◌, ◌+◌, ◌≤◌};
ghost use Rattle.arrayvec.specs.ArrayVec.{array_vec_len};
ghost use Rattle.wkb_writing.specs.Wkb.{word_bytes, coordinate_bytes, point_bytes, header_bytes};

use crate::{WKB_LIMIT, Wkb};
use plane::Point;
use scene_writing::append;

#[tactic(auto, unfolding(crate::specs::Wkb::word_bytes))]
pub fn word(wkb: &mut Wkb, n: u32)
    requires { array_vec_len wkb.old + 4 ≤ WKB_LIMIT }
    ensures { wkb.new.items ≡ wkb.old.items ++ word_bytes n }
{
    append(wkb, &n.to_le_bytes());
}

// A whole number as the float that it is.
#[tactic(auto, unfolding(crate::specs::Wkb::coordinate_bytes, crate::specs::Wkb::pattern), using(crate::proofs::Pattern::no_nan_bits))]
fn coordinate(wkb: &mut Wkb, z: i32)
    requires { array_vec_len wkb.old + 8 ≤ WKB_LIMIT }
    ensures { wkb.new.items ≡ wkb.old.items ++ coordinate_bytes z }
{
    append(wkb, &f64::from(z).to_bits().to_le_bytes());
}

#[tactic(auto, using(crate::proofs::Lengths::lengths, std::proofs::lemmas::Grind::common_steps))]
pub fn point(wkb: &mut Wkb, p: Point)
    requires { array_vec_len wkb.old + 16 ≤ WKB_LIMIT }
    ensures { wkb.new.items ≡ wkb.old.items ++ point_bytes p }
{
    coordinate(wkb, p.x);
    coordinate(wkb, p.y);
}

// The byte order, low byte first, and the type.
pub fn header(wkb: &mut Wkb, number: u32)
    requires { array_vec_len wkb.old + 5 ≤ WKB_LIMIT }
    ensures { wkb.new.items ≡ wkb.old.items ++ header_bytes number }
{
    wkb.push(1);
    word(wkb, number);
}
