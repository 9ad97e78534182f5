// The far question: what two summaries, as bytes, tell of their objects.
#![tactic(auto)]

ghost use Rattle.std.specs.Prelude.{◌≡◌};
ghost use Rattle.flags.specs.Flags.{pack};
ghost use Rattle.summary.specs.Summary.{beside, are_far, flags_f, flags_g, ascending_vectors, far_vectors, told_of, asked_of};
ghost use Rattle.summary_objects.specs.Objects.{GoodExactlyIfMade, ToldInFull, LookExactlyIfNear};

use flags::packed;
use flags_vectors::Vectors;
use scene::{Reason, Refusal, Shape};
use summary::{Bounds, Summary};

// ---- boxes that share no point

#[tactic(auto, unfolding(summary::specs::Summary::beside))]
fn are_beside(b: Bounds, c: Bounds) -> bool
    ensures { result ≡ beside b c }
{
    b.greatest.x < c.least.x
        || c.greatest.x < b.least.x
        || (b.greatest.y < c.least.y || c.greatest.y < b.least.y)
}

fn are_far(s: Summary, t: Summary) -> bool
    ensures { result ≡ are_far s t }
{
    s.empty || t.empty || are_beside(s.bounds, t.bounds)
}

// ---- the vectors of far objects, F's type not above G's

// Kept as two functions, of F and of G: each is a table of the definitions, `flags_f` or `flags_g`, and no row with flags is the same in both.
fn vector_f(k: Shape, l: Shape, filled: bool, boundary: bool) -> u16
    ensures { result ≡ pack (flags_f k l filled boundary) }
{
    match (k, l) {
        (Shape::Points, Shape::Points) => packed([filled, false]), // poi_disjoint
        (Shape::Points, Shape::Line) => packed([filled, false, false]), // poi_disjoint
        (Shape::Points, Shape::Region) => packed([false, false, filled]), // poi_outside
        (Shape::Line, Shape::Line) => packed([false, false, filled, false, false, boundary]), // seg_unshared, bound_disjoint
        (Shape::Line, Shape::Region) => packed([
            false, false, filled, false, false, false, boundary, // seg_outside, bound_disjoint
        ]),
        (Shape::Region, Shape::Region) => packed([
            filled, filled, false, false, false, false, false, false, // (0/1), (1/0)
        ]),
        (Shape::Line, Shape::Points) | (Shape::Region, Shape::Points | Shape::Line) => 0,
    }
}

fn vector_g(k: Shape, l: Shape, filled: bool, boundary: bool) -> u16
    ensures { result ≡ pack (flags_g k l filled boundary) }
{
    match (k, l) {
        (Shape::Points, Shape::Points) => packed([filled]), // poi_disjoint
        (Shape::Points, Shape::Line) => packed([boundary]), // bound_poi_disjoint
        (Shape::Line, Shape::Line) => packed([filled, false, boundary]), // seg_unshared, bound_disjoint
        (Shape::Line, Shape::Region) => packed([filled]), // seg_unshared
        (Shape::Region, Shape::Region) => packed([filled, filled, false, false]), // (0/1), (1/0)
        (Shape::Points, Shape::Region)
        | (Shape::Line, Shape::Points)
        | (Shape::Region, Shape::Points | Shape::Line) => 0,
    }
}

fn ascending(s: Summary, t: Summary) -> Vectors
    ensures { result ≡ ascending_vectors s t }
{
    Vectors {
        f: vector_f(s.shape, t.shape, !s.empty, s.boundary),
        g: vector_g(s.shape, t.shape, !t.empty, t.boundary),
    }
}

// In the caller's order: the table is for types that do not descend, and the other order is that with both sides exchanged.
fn vectors(s: Summary, t: Summary) -> Vectors
    ensures { result ≡ far_vectors s t }
{
    if t.shape < s.shape {
        let v = ascending(t, s);
        Vectors { f: v.g, g: v.f }
    } else {
        ascending(s, t)
    }
}

// ---- the question

#[tactic(auto, unfolding(summary::specs::Summary::told_of))]
fn tell(s: Summary, t: Summary) -> Option<Vectors>
    ensures { result ≡ told_of s t }
{
    are_far(s, t).then(|| vectors(s, t))
}

// The far question: both vectors if the objects are far, none if the objects themselves must be looked at. For every two byte strings the whole answer; what is made is taken, and nothing else; where
// vectors are told they are the full answer; and "look" in words.
pub fn far(first: &[u8], second: &[u8]) -> Result<Option<Vectors>, Refusal>
    ensures { (result ≡ asked_of first.now second.now)
        × GoodExactlyIfMade first.now × GoodExactlyIfMade second.now
        × ToldInFull first.now second.now result
        × LookExactlyIfNear first.now second.now result }
{
    let Some(s) = summary_record::parse(first) else {
        return Reason::BadSummary.at(0);
    };
    let Some(t) = summary_record::parse(second) else {
        return Reason::BadSummary.at(1);
    };
    Ok(tell(s, t))
}
