// The left halfsegments of two objects one after the other, in their order: a walk with a place in each of the two. Points have none.
ghost use Rattle.std.specs.Prelude.{◌≡◌, ◌+◌, ◌-◌, ◌<◌, ◌≤◌, T};
ghost use Rattle.std.specs.Iterator.{at_most};
ghost use Rattle.plane.specs.Plane.{segment_in_range};
ghost use Rattle.flags_classes.specs.Walked.{left_before, FirstLeft, step_of, Stepped, f_after, g_after};

use plane::{Halfsegment, Segment};
use scene_segments::{Object, Pair};

// What comes next: the halfsegment i of F, or j of G, or both, which have the same segment. The other of i and j is the first after its place.
#[derive(Clone, Copy)]
pub enum Step {
    OfF { i: usize, j: usize },
    OfG { i: usize, j: usize },
    OfBoth { i: usize, j: usize },
}

/// A walk over the left halfsegments of two objects, F and G: from the element i of F and the element j of G on.
#[derive(Drop)]
pub struct Merged<'a> {
    pub pair: Pair<'a>,
    pub i: usize,
    pub j: usize,
    pub ghost within_own: { i ≤ pair.own.count },
    pub ghost within_other: { j ≤ pair.other.count },
}

impl<'a> Merged<'a> {
    // From the first elements on.
    pub fn of(pair: Pair<'a>) -> Merged<'a>
        ensures { (result.pair ≡ pair.entry) × (result.i ≡ 0) × (result.j ≡ 0) }
    {
        Merged { pair, i: 0, j: 0 }
    }

    // What comes next, from where the walk stands.
    fn peek(&self) -> Option<Step>
        ensures { Stepped self.now.pair.bytes.now self.now.pair.own self.now.pair.other self.now.i self.now.j result }
    {
        let f = self.pair.own();
        let g = self.pair.other();
        match (next_left(f, self.i), next_left(g, self.j)) {
            (Some(i), Some(j)) => Some(first(f.half(i).segment, g.half(j).segment, i, j)),
            (Some(i), None) => Some(Step::OfF {
                i,
                j: g.layout.count,
            }),
            (None, Some(j)) => Some(Step::OfG {
                i: f.layout.count,
                j,
            }),
            (None, None) => None,
        }
    }
}

impl<'a> Iterator for Merged<'a> {
    type Item = Step;

    ghost next_gives = { λ w step v. Stepped w.pair.bytes.now w.pair.own w.pair.other w.i w.j step
        × (v.pair ≡ w.pair) × (v.i ≡ f_after w.i step) × (v.j ≡ g_after w.j step) };

    ghost remaining = { λ w. at_most (w.pair.own.count + w.pair.other.count - (w.i + w.j)) };

    fn next(&mut self) -> Option<Step> {
        let step = self.peek()?;
        match step {
            Step::OfF { i, j } => {
                self.i = i + 1;
                self.j = j;
            }
            Step::OfG { i, j } => {
                self.i = i;
                self.j = j + 1;
            }
            Step::OfBoth { i, j } => {
                self.i = i + 1;
                self.j = j + 1;
            }
        }
        Some(step)
    }
}

// The first left halfsegment from the element i on.
fn next_left(o: Object<'_>, i: usize) -> Option<usize>
    requires { i ≤ o.layout.count }
    ensures { FirstLeft o.entry.bytes.now o.entry.layout i result }
{
    if !o.has_segments() {
        return None;
    }
    for k in i..o.layout.count {
        if o.half(k).is_left {
            return Some(k);
        }
    }
    None
}

fn is_left_before(t: Segment, u: Segment) -> bool
    requires { T (segment_in_range t) × T (segment_in_range u) }
    ensures { result ≡ left_before t u }
{
    plane_segments::comes_before(
        Halfsegment {
            segment: t,
            is_left: true,
        },
        Halfsegment {
            segment: u,
            is_left: true,
        },
    )
}

// Of the segment t at i and the segment u at j, the first, or both.
#[tactic(auto, using(plane::proofs::Compared::same_segments))]
fn first(t: Segment, u: Segment, i: usize, j: usize) -> Step
    requires { T (segment_in_range t) × T (segment_in_range u) }
    ensures { result ≡ step_of t u i j }
{
    if t == u {
        Step::OfBoth { i, j }
    } else if is_left_before(t, u) {
        Step::OfF { i, j }
    } else {
        Step::OfG { i, j }
    }
}
