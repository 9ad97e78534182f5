// The different segments of two regions one after the other, in the order of left halfsegments: how many they are, and the sides of each, by what the sweep
// noted.
ghost use Rattle.std.specs.Prelude.{◌≡◌, ◌+◌, ◌-◌, length, T};
ghost use Rattle.std.specs.Iterator.{at_most};
ghost use Rattle.scene.specs.Conditions.{is_region};
ghost use Rattle.flags.specs.Elements.{edges};
ghost use Rattle.flags_classes.proofs.Standing.{Standing};
ghost use Rattle.overlap.specs.Bytes.{overlap_bytes};
ghost use Rattle.overlap.specs.Walked.{coded, SidesStepped};

use crate::adjoining;
use crate::adjoining::Sides;
use crate::regions::Regions;
use flags_classes::merged::{Merged, Step};
use plane::Segment;
use scene_segments::Pair;

// How many different segments the two regions have.
pub fn count(regions: Pair<'_>) -> usize
    requires { T (is_region regions.own.shape) × T (is_region regions.other.shape) }
    ensures { result ≡ length (overlap_bytes (edges regions.entry.bytes.now regions.entry.own) (edges regions.entry.bytes.now regions.entry.other)) }
{
    Merged::of(regions).count()
}

/// A segment, and the sides where either region adjoins it.
#[derive(Clone, Copy)]
pub struct Sided {
    pub segment: Segment,
    pub of_f: Sides,
    pub of_g: Sides,
}

impl Sided {
    // Its byte in the list.
    pub fn byte(self) -> u8
        ensures { result ≡ coded self.of_f self.of_g }
    {
        adjoining::coded(self.of_f, self.of_g)
    }
}

/// A walk over the different segments of two regions: what is passed of either comes before all that is left of the other.
#[derive(Drop)]
pub struct MergedSides<'a> {
    pub regions: Regions<'a>,
    pub merged: Merged<'a>,
    pub ghost bytes: { merged.pair.bytes.now ≡ regions.read.bytes.now },
    pub ghost own: { merged.pair.own ≡ regions.read.scene.f },
    pub ghost other: { merged.pair.other ≡ regions.read.scene.g },
    pub ghost stands: { Standing regions.read.bytes.now regions.read.scene.f regions.read.scene.g merged.i merged.j },
}

impl<'a> MergedSides<'a> {
    // From the first elements on.
    pub fn of(regions: Regions<'a>) -> MergedSides<'a>
        ensures { (result.regions ≡ regions.entry) × (result.merged.i ≡ 0) × (result.merged.j ≡ 0) }
    {
        MergedSides {
            regions,
            merged: Merged::of(regions.read.pair()),
        }
    }
}

impl<'a> Iterator for MergedSides<'a> {
    type Item = Sided;

    ghost next_gives = { λ w next v. (v.regions ≡ w.regions)
        × SidesStepped w.regions.read.bytes.now w.regions.read.scene.f w.regions.read.scene.g w.merged.i w.merged.j next v.merged.i v.merged.j };

    ghost remaining = { λ w. at_most (w.merged.pair.own.count + w.merged.pair.other.count - (w.merged.i + w.merged.j)) };

    // By the notes: a segment of one region alone lies inside the other where its note is not even.
    fn next(&mut self) -> Option<Sided> {
        let f = self.merged.pair.own();
        let g = self.merged.pair.other();
        let notes = self.regions.notes;
        match self.merged.next()? {
            Step::OfF { i, .. } => Some(Sided {
                segment: f.half(i).segment,
                of_f: adjoining::own_sides(f, i),
                of_g: adjoining::noted_sides(notes.of(true, i)),
            }),
            Step::OfG { j, .. } => Some(Sided {
                segment: g.half(j).segment,
                of_f: adjoining::noted_sides(notes.of(false, j)),
                of_g: adjoining::own_sides(g, j),
            }),
            Step::OfBoth { i, j } => Some(Sided {
                segment: f.half(i).segment,
                of_f: adjoining::own_sides(f, i),
                of_g: adjoining::own_sides(g, j),
            }),
        }
    }
}
