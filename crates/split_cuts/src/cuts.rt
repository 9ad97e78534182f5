// The cuts of a segment by the segments of another object: their ends strictly inside it, and where they cross it; and whether one crosses it off the grid.
ghost use Rattle.std.specs.Prelude.{◌≡◌, T};
ghost use Rattle.whole.specs.Count.{some};
ghost use Rattle.plane.specs.Plane.{segment_in_range, ordered};
ghost use Rattle.split_crossing.specs.Cuts.{cuts};
ghost use Rattle.split_cuts.specs.Listed.{segments_of};
ghost use Rattle.split_cuts.specs.Split.{crosses_off};

use crate::Segments;
use plane::Segment;
use split_crossing::Stepped;
use split_crossing::cuts::Cuts;

impl<'a> Segments<'a> {
    // Finds the cuts of t by them. Does one of them cross it off the grid?
    pub fn cuts_of(self, t: Segment, found: &mut Cuts) -> bool
        requires { T (segment_in_range t) × T (ordered t) }
        ensures { (result ≡ some (crosses_off t) (segments_of self.entry.list.now)) × (found.new.items ≡ cuts (segments_of self.entry.list.now) t) }
    {
        let steps = Stepped::of(t);
        let mut is_off = false;
        found.clear();
        for &u in self.list {
            if steps.put_cuts(found, u.segment) {
                is_off = true;
            }
        }
        is_off
    }
}
