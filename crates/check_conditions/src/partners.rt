// Condition 11 as a test of one element, by its index: a halfsegment with no partner of opposite d, equal ends and ia, which is looked for at its one
// place in the order.
ghost use Rattle.std.specs.Prelude.{◌≡◌, not, ◌&&◌, ◌<◌, T};
ghost use Rattle.plane.specs.Plane.{segment_in_range};
ghost use Rattle.scene.specs.Conditions.{has_segments};
ghost use Rattle.scene_segments.specs.Walked.{partners};
ghost use Rattle.check_conditions.specs.Partners.{place_for, has_partner};

use plane::Halfsegment;
use scene_segments::Object;

// Are two halfsegments, each with its ia, partners?
#[tactic(auto, using(plane::proofs::Compared::same_segments))]
fn are_partners(h: Halfsegment, ia: bool, other: Halfsegment, other_ia: bool) -> bool
    ensures { result ≡ partners h ia other other_ia }
{
    h.is_left != other.is_left && h.segment == other.segment && ia == other_ia
}

// Where h stands among the elements, or would.
// Kept as a loop: the library's search by halving wants a slice, and here each element is read out of the bytes. Kept beside that of the sweep's status: this one
// says which place it finds, that one promises a place between two neighbours, and a loop in common would have to promise both.
fn place_for(o: Object<'_>, h: Halfsegment) -> usize
    requires { T (has_segments o.layout.shape) × T (segment_in_range h.segment) }
    ensures { result ≡ place_for o.entry.bytes.now o.entry.layout h }
{
    let mut low: usize = 0;
    let mut high = o.layout.count;
    while low < high {
        let middle = (low + high) / 2;
        if plane_segments::comes_before(o.half(middle), h) {
            low = middle + 1;
        } else {
            high = middle;
        }
    }
    low
}

fn has_partner(o: Object<'_>, i: usize) -> bool
    requires { (i < o.layout.count) × T (has_segments o.layout.shape) }
    ensures { result ≡ has_partner o.entry.bytes.now o.entry.layout i }
{
    let h = o.half(i);
    let j = place_for(o, h.other());
    j < o.layout.count && are_partners(h, o.ia(i), o.half(j), o.ia(j))
}

pub fn is_unpaired(o: Object<'_>, i: usize) -> bool
    requires { i < o.layout.count }
    ensures { result ≡ (has_segments o.entry.layout.shape && not (has_partner o.entry.bytes.now o.entry.layout i)) }
{
    o.has_segments() && !has_partner(o, i)
}
