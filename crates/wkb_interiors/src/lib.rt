// Condition 14's ia of the segments of a row, by the keys of their ends. A segment that ends left of a midpoint's column is passed over by its key alone, and
// where one begins right of the column the search ends, since the row is by left ends.
#![tactic(auto)]

ghost use Rattle.std.specs.Prelude.{◌≡◌, map};
ghost use Rattle.whole.specs.Count.{count};
ghost use Rattle.plane.specs.Plane.{interior_above};
ghost use Rattle.scene_segments.specs.Walked.{is_below};
ghost use Rattle.scene_keys.specs.Keyed.{GoodEnds, keyed_segment};
ghost use Rattle.scene_writing.specs.Rows.{segments_in};
ghost use Rattle.wkb_rows.specs.Rows.{Rises, ends_cmp};
ghost use Rattle.wkb_interiors.specs.Interiors.{IsMiddle};

use arrayvec::ArrayVec;
use plane::{Point, Segment};
use scene_keys::{Ends, ROOM};
use scene_writing::Row;

pub mod guess;

/// A segment, the doubled coordinates of its midpoint, and the least key of a point in the column that the midpoint is in; of two columns between which it lies,
/// the left one.
#[derive(Clone, Copy)]
struct Middle {
    segment: Segment,
    doubled: Point,
    column: u64,
    ghost is: { IsMiddle segment doubled column },
}

impl Middle {
    fn new(ends: Ends) -> Middle
        requires { GoodEnds ends }
        ensures { result.segment ≡ keyed_segment ends }
    {
        let segment = ends.segment();
        Middle {
            segment,
            doubled: plane_segments::doubled_midpoint(segment),
            column: (ends.left / ROOM + ends.right / ROOM) / 2 * ROOM,
        }
    }

    // Does a segment count for the ia?
    fn counts(&self, ends: Ends) -> bool
        requires { GoodEnds ends }
        ensures { result ≡ is_below self.now.segment (keyed_segment ends) }
    {
        self.column <= ends.right
            && scene_segments::is_below(ends.segment(), self.segment, self.doubled)
    }

    // How many do?
    fn count(&self, row: Row<'_>) -> usize
        requires { Rises ends_cmp row.ends.now }
        ensures { result ≡ count (is_below self.now.segment) (segments_in row.entry.ends.now) }
    {
        let mut n = 0;
        for ends in row.ends {
            if self.column + ROOM <= ends.left {
                return n;
            }
            n += self.counts(*ends) as usize;
        }
        n
    }
}

// Is the interior above a segment, or left of it if it is vertical?
fn interior_above(row: Row<'_>, ends: Ends) -> bool
    requires { GoodEnds ends × Rises ends_cmp row.ends.now }
    ensures { result ≡ interior_above (segments_in row.entry.ends.now) (keyed_segment ends) }
{
    let middle = Middle::new(ends);
    let is_odd = middle.count(row) % 2 == 1;
    is_odd == (middle.segment.left.x == middle.segment.right.x)
}

// The ia of each segment of the row.
pub fn interiors(row: Row<'_>) -> ArrayVec<bool, 512>
    requires { Rises ends_cmp row.ends.now }
    ensures { result.items ≡ map (interior_above (segments_in row.entry.ends.now)) (segments_in row.entry.ends.now) }
{
    let mut ia = ArrayVec::new();
    for ends in row.ends {
        ia.push(interior_above(row, *ends));
    }
    ia
}
