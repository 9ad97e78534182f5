// The pieces of an object's segments, cut where they cross or touch those of another object, and whether one crosses another off the grid. The segments of
// both objects are read once, into lists.
#![tactic(auto)]

ghost use Rattle.std.specs.Prelude.{◌≡◌, ◌≤◌, length};
ghost use Rattle.split_cuts.specs.Listed.{segments_of, listed, Good};

use arrayvec::ArrayVec;
use plane::Segment;
use scene_segments::Object;

pub mod cuts;
pub mod first;
pub mod pieces;

/// A segment, or a piece of one, and whether the interior of its region is above it. A line has none.
#[derive(Clone, Copy, Default)]
pub struct Piece {
    pub segment: Segment,
    pub ia: bool,
}

// An object has no more elements.
const MOST: usize = 1024;

// The segments of an object, each once.
pub fn listed(o: Object<'_>) -> ArrayVec<Piece, MOST>
    ensures { result.items ≡ listed o.entry.bytes.now o.entry.layout }
{
    let mut list = ArrayVec::new();
    if !o.has_segments() {
        return list;
    }
    for i in 0..o.layout.count {
        let h = o.half(i);
        if h.is_left {
            list.push(Piece {
                segment: h.segment,
                ia: o.ia(i),
            });
        }
    }
    list
}

/// The segments of an object that was read, in a list.
#[derive(Clone, Copy)]
pub struct Segments<'a> {
    pub list: &'a [Piece],
    pub ghost few: { length list.now ≤ 1024 },
    pub ghost good: { Good (segments_of list.now) },
}
