// The ia of a region's segments as they are if the region is sound: no clause says so, since the check of the region decides whether they are right.
// Where a segment ends, those that begin there follow from it, in turn. Only where none ends are the segments counted that pass under the point.
ghost use Rattle.std.specs.Prelude.{◌<◌, length, T};
ghost use Rattle.plane.specs.Plane.{in_range};
ghost use Rattle.scene_keys.specs.Keyed.{GoodEnds};
ghost use Rattle.scene_writing.specs.Named.{AreHalves};

use arrayvec::ArrayVec;
use plane::{Point, Turn};
use scene_keys::{Ends, ROOM};
use scene_writing::{Half, Row};

// A segment of a row that may be active: the key of its right end, the lower and the upper row of the grid that its ends are in, and its index.
#[derive(Clone, Copy, Default)]
struct Span {
    right: u64,
    low: u64,
    high: u64,
    index: usize,
}

type Active = ArrayVec<Span, 512>;

impl Span {
    fn new(ends: Ends, index: usize) -> Span {
        let left = ends.left % ROOM;
        let right = ends.right % ROOM;
        Span {
            right: ends.right,
            low: left.min(right),
            high: left.max(right),
            index,
        }
    }

    // Does it pass under a point, that has this row? Mostly its rows tell.
    fn passes_under(self, row: Row<'_>, p: Point, y: u64) -> bool
        requires { T (in_range p) }
    {
        if self.high < y {
            return true;
        }
        if y <= self.low {
            return false;
        }
        let i = self.index;
        i < row.ends.len() && passes_under(row.ends[i], p)
    }
}

// Does a segment pass under a point?
fn passes_under(ends: Ends, p: Point) -> bool
    requires { GoodEnds ends × T (in_range p) }
{
    let t = ends.segment();
    plane::turns(t.left, t.right, p, Turn::Left)
}

// Those that begin before a point, from a place in the row on: the place of the first that does not.
fn begin_before(row: Row<'_>, active: &mut Active, from: usize, key: u64) -> usize {
    for k in from..row.ends.len() {
        let ends = row.ends[k];
        if key <= ends.left {
            return k;
        }
        let _ = active.try_push(Span::new(ends, k));
    }
    row.ends.len()
}

// Do an odd number of those that are active pass under the beginning of the segment i? Those that ended before it go.
fn has_odd_under(row: Row<'_>, active: &mut Active, i: usize) -> bool
    requires { i < length row.ends.now }
{
    let it = row.ends[i];
    let p = it.segment().left;
    let y = it.left % ROOM;
    let mut odd = false;
    let mut kept = 0;
    for k in 0..active.len() {
        let span = active.as_slice()[k];
        if it.left < span.right {
            active.as_mut_slice()[kept] = span;
            kept += 1;
            odd = odd != span.passes_under(row, p, y);
        }
    }
    active.truncate(kept);
    odd
}

// The ia of each segment of the row, whose halves are given in order.
pub fn guess(row: Row<'_>, order: &[Half]) -> [bool; 512]
    requires { AreHalves row.ends.now order.now }
{
    let mut ia = [false; 512];
    let mut active = Active::new();
    let mut next = 0;
    let mut point = scene_keys::TOP;
    let mut was_left = false;
    let mut above = false;
    for h in order {
        let i = h.index as usize;
        let key = row.key(*h);
        above = if !h.is_left {
            ia[i]
        } else if key == point {
            above != was_left
        } else {
            next = begin_before(row, &mut active, next, key);
            !has_odd_under(row, &mut active, i)
        };
        ia[i] = above;
        point = key;
        was_left = h.is_left;
    }
    ia
}
