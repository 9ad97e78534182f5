// The events of a scene: the elements of its two objects in the merged order, equal ones of both being one. Which comes next, of an element of each.
#![tactic(auto)]

ghost use Rattle.std.specs.Prelude.{◌≡◌, ◌<◌};
ghost use Rattle.walk_events.specs.Events.{event_of, same_event, event_before};
ghost use Rattle.walk_events.specs.Stepping.{Fair, step_of};

use plane::{Halfsegment, Point};
use scene::Shape;
use scene_segments::Object;

// An element, as the order sees it: without its object and its ia.
#[derive(Clone, Copy)]
pub enum Event {
    At(Point),
    Side(Halfsegment),
}

// Which object has the event that comes next.
#[derive(Clone, Copy)]
pub enum Step {
    OfF,
    OfG,
    OfBoth,
}

impl Event {
    // That of an element of an object.
    pub fn of(o: Object<'_>, i: usize) -> Event
        requires { i < o.layout.count }
        ensures is { result ≡ event_of o.entry.bytes.now o.entry.layout i }
        ensures fair { Fair result }
    {
        match o.layout.shape {
            Shape::Points => Event::At(o.point(i)),
            Shape::Line | Shape::Region => Event::Side(o.half(i)),
        }
    }

    // Halfsegments by ends and d alone; a point is never equal to a halfsegment.
    #[tactic(auto, using(plane::proofs::Compared::same_points, plane::proofs::Compared::same_segments), unfolding(crate::specs::Events::same_event))]
    pub fn is_same(self, other: Event) -> bool
        ensures { result ≡ same_event self other }
    {
        match (self, other) {
            (Event::At(p), Event::At(q)) => p == q,
            (Event::Side(h), Event::Side(k)) => h.segment == k.segment && h.is_left == k.is_left,
            (Event::At(_), Event::Side(_)) | (Event::Side(_), Event::At(_)) => false,
        }
    }

    // A point comes after the halfsegments whose dominating point it is.
    #[tactic(auto, using(plane::proofs::Compared::before_is, plane::proofs::Compared::upto_is, crate::proofs::Ordering::upto_is), unfolding(crate::specs::Events::event_before))]
    pub fn is_before(self, other: Event) -> bool
        requires { Fair self × Fair other }
        ensures { result ≡ event_before self other }
    {
        match (self, other) {
            (Event::At(p), Event::At(q)) => p < q,
            (Event::At(p), Event::Side(k)) => p < plane_segments::dominating_point(k),
            (Event::Side(h), Event::At(q)) => plane_segments::dominating_point(h) <= q,
            (Event::Side(h), Event::Side(k)) => plane_segments::comes_before(h, k),
        }
    }
}

// Of an element of F and one of G, the first, or both.
pub fn first(a: Event, b: Event) -> Step
    requires { Fair a × Fair b }
    ensures { result ≡ step_of a b }
{
    if a.is_same(b) {
        Step::OfBoth
    } else if a.is_before(b) {
        Step::OfF
    } else {
        Step::OfG
    }
}
