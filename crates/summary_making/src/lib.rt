// The call on one object: its summary, or a refusal under 1 to 7 or 10 to 14 over its bytes alone.
// The object is laid beside an empty one of its type. The two form a scene that is refused as the object is, at the same place, and whose flags say whether the
// object's boundary has a point: so the checks, and the rule of the boundary, are those of the vectors question.
#![tactic(auto)]

ghost use Rattle.std.specs.Prelude.{◌≡◌, not, Ok};
ghost use Rattle.scene.specs.Conditions.{check_object};
ghost use Rattle.check_verdict.specs.SharedPoints.{CheckedObjectMeans};
ghost use Rattle.flags.specs.Flags.{Elements, pack};
ghost use Rattle.summary.specs.Summary.{flags_f, shape_of, has_boundary, is_empty};
ghost use Rattle.summary_objects.specs.Objects.{summary_in};
ghost use Rattle.summary_making.specs.Making.{beside_empty, summary_answer_of};

use scene::{Refusal, Shape};
use scene_segments::Object;
use summary::{Bounds, Summary};

pub mod beside;
pub mod bounds;

// Has the boundary a point? A line's has where bound_disjoint is set, its flag 5 beside an empty line.
#[tactic(auto, using(flags::proofs::Bits::pack_bit))]
fn has_boundary(k: Shape, empty: bool, v: u16) -> bool
    ensures { (F : Elements) → shape_of F ≡ k → is_empty F ≡ empty → v ≡ pack (flags_f k k (not empty) (has_boundary F)) → result ≡ has_boundary F }
{
    match k {
        Shape::Points => false,
        Shape::Line => flags::has_bit(v, 5),
        Shape::Region => !empty,
    }
}

// The box of an accepted object.
fn bounds_in(o: Object<'_>) -> Bounds
    requires { check_object o.bytes.now ≡ Ok o.layout }
    ensures { result ≡ (summary_in o.entry.bytes.now o.entry.layout).bounds }
{
    if o.layout.count == 0 {
        Bounds::NOWHERE
    } else {
        bounds::bounds_of(o)
    }
}

// The summary of an accepted object, from its vector beside an empty one of its type.
fn made(o: Object<'_>, v: u16) -> Summary
    requires { (check_object o.bytes.now ≡ Ok o.layout) × (v ≡ beside_empty (summary_in o.bytes.now o.layout)) }
    ensures { result ≡ summary_in o.entry.bytes.now o.entry.layout }
{
    let shape = o.layout.shape;
    let empty = o.layout.count == 0;
    Summary {
        shape,
        empty,
        bounds: bounds_in(o),
        boundary: has_boundary(shape, empty, v),
    }
}

// An object's bytes: the summary of its elements, or the refusal; and what the check says of the points that its segments share.
pub fn summarize(s: &[u8]) -> Result<Summary, Refusal>
    ensures { (result ≡ summary_answer_of s.now) × CheckedObjectMeans s.now (check_object s.now) }
{
    let layout = scene_reading::read_alone(s)?;
    let o = Object { bytes: s, layout };
    let answer = beside::answer(s, layout.shape)?;
    Ok(made(o, answer.vectors.f))
}
