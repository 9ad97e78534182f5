// The parts of well-known binary, one for each point and one for each left halfsegment, from an object's bytes.
ghost use Rattle.std.specs.Prelude.{◌≡◌, Ok, ◌++◌, ◌+◌, ◌<◌, ◌≤◌, length};
ghost use Rattle.arrayvec.specs.ArrayVec.{array_vec_len};
ghost use Rattle.scene.specs.Read.{place};
ghost use Rattle.scene.specs.Conditions.{check_object};
ghost use Rattle.wkb_writing.specs.Wkb.{point_part, segment_part};
ghost use Rattle.wkb_writing.specs.Parts.{half_part, element_part, parts_from, count_from};

use crate::{WKB_LIMIT, Wkb, fields};
use plane::{Halfsegment, Point, Segment};
use scene_segments::Object;

#[tactic(auto, unfolding(crate::specs::Wkb::point_part), using(crate::proofs::Lengths::lengths, std::proofs::lemmas::Grind::common_steps))]
fn point(wkb: &mut Wkb, p: Point)
    requires { array_vec_len wkb.old + 21 ≤ WKB_LIMIT }
    ensures { wkb.new.items ≡ wkb.old.items ++ point_part p }
{
    fields::header(wkb, 1);
    fields::point(wkb, p);
}

#[tactic(auto, unfolding(crate::specs::Wkb::segment_part), using(crate::proofs::Lengths::lengths, std::proofs::lemmas::Grind::common_steps))]
fn segment(wkb: &mut Wkb, t: Segment)
    requires { array_vec_len wkb.old + 41 ≤ WKB_LIMIT }
    ensures { wkb.new.items ≡ wkb.old.items ++ segment_part t }
{
    fields::header(wkb, 2);
    fields::word(wkb, 2);
    fields::point(wkb, t.left);
    fields::point(wkb, t.right);
}

// A segment once, for its left halfsegment.
#[tactic(auto, using(crate::proofs::Lengths::lengths, std::proofs::lemmas::Grind::common_steps))]
fn half(wkb: &mut Wkb, h: Halfsegment)
    requires { array_vec_len wkb.old + length (half_part h) ≤ WKB_LIMIT }
    ensures { wkb.new.items ≡ wkb.old.items ++ half_part h }
{
    if h.is_left {
        segment(wkb, h.segment);
    }
}

// The part, if any, of an element.
#[tactic(auto, using(crate::proofs::Lengths::lengths, std::proofs::lemmas::Grind::common_steps))]
fn element(wkb: &mut Wkb, o: Object<'_>, i: usize)
    requires { (i < o.layout.count) × (array_vec_len wkb.old + length (element_part o.bytes.now o.layout.shape (place o.layout i)) ≤ WKB_LIMIT) }
    ensures { wkb.new.items ≡ wkb.old.items ++ element_part o.entry.bytes.now o.entry.layout.shape (place o.entry.layout i) }
{
    if o.has_segments() {
        half(wkb, o.half(i));
    } else {
        point(wkb, o.point(i));
    }
}

// Those of all elements of an object.
pub fn all(wkb: &mut Wkb, o: Object<'_>)
    requires { array_vec_len wkb.old + length (parts_from o.bytes.now o.layout o.layout.count 0) ≤ WKB_LIMIT }
    ensures { wkb.new.items ≡ wkb.old.items ++ parts_from o.entry.bytes.now o.entry.layout o.entry.layout.count 0 }
{
    for i in 0..o.layout.count {
        element(wkb, o, i);
    }
}

// How many: one for each point, and one for the two halfsegments of each segment.
pub fn count(o: Object<'_>) -> usize
    requires { check_object o.bytes.now ≡ Ok o.layout }
    ensures { result ≡ count_from o.entry.bytes.now o.entry.layout o.entry.layout.count 0 }
{
    if o.has_segments() {
        o.layout.count / 2
    } else {
        o.layout.count
    }
}
