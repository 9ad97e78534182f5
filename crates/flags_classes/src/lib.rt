// The classes of the segments of two objects, each beside the other object: shared or not, by the sides of the interiors and the notes of the sweep.
// Both are found in one walk over the left halfsegments of both objects in their order.
#![tactic(auto)]

ghost use Rattle.std.specs.Prelude.{ℕ, ◌≡◌, List, map, take};
ghost use Rattle.flags_classes.specs.Classed.{classes_of_f, classes_of_g};
ghost use Rattle.flags_classes.specs.Marked.{unshared_marks, shared_marks, named};
ghost use Rattle.sweep_notes.specs.Numbers.{note_number, as_read};

use check_verdict::taken::TakenScene;
use flags::MarkSet;
use merged::{Merged, Step};
use sweep_notes::{Note, Notes};

pub mod merged;

// Which classes the segments of an object have beside the other object: with their own interior above them, or not. A line's have none.
#[derive(Clone, Copy, Default)]
pub struct Classes {
    // None of the other's, outside it or inside, by an even note or another: (0/1), (1/0), (1/2), (2/1).
    pub above_outside: bool,
    pub below_outside: bool,
    pub above_inside: bool,
    pub below_inside: bool,
    // One of the other's, too, with both interiors above it, with both below it, or with one on each side: (0/2), (2/0), (1/1).
    pub both_above: bool,
    pub both_below: bool,
    pub opposite: bool,
}

#[derive(Clone, Copy, Default)]
pub struct ClassesOfBoth {
    pub f: Classes,
    pub g: Classes,
}

// The walk collects them as marks.
const ABOVE_OUTSIDE: MarkSet = MarkSet(1);

const BELOW_OUTSIDE: MarkSet = MarkSet(2);

const ABOVE_INSIDE: MarkSet = MarkSet(4);

const BELOW_INSIDE: MarkSet = MarkSet(8);

const BOTH_ABOVE: MarkSet = MarkSet(16);

const BOTH_BELOW: MarkSet = MarkSet(32);

const OPPOSITE: MarkSet = MarkSet(64);

// The mark of a segment that is none of the other object's.
pub fn unshared(above: bool, note: Note) -> MarkSet
    ensures { result.0 ≡ unshared_marks above (note_number note) }
{
    match (above, note) {
        (true, Note::Even) => ABOVE_OUTSIDE,
        (false, Note::Even) => BELOW_OUTSIDE,
        (true, _) => ABOVE_INSIDE,
        (false, _) => BELOW_INSIDE,
    }
}

// The mark of a segment of both, with the interior of the other object above it or not.
pub fn shared(above: bool, other: bool) -> MarkSet
    ensures { result.0 ≡ shared_marks above other }
{
    match (above, other) {
        (true, true) => BOTH_ABOVE,
        (false, false) => BOTH_BELOW,
        (true, false) | (false, true) => OPPOSITE,
    }
}

// What marks stand for; of none there are no classes.
impl From<MarkSet> for Classes {
    ghost from_gives = { λ marks all. all ≡ named marks.0 };

    fn from(marks: MarkSet) -> Classes {
        Classes {
            above_outside: marks.has(ABOVE_OUTSIDE),
            below_outside: marks.has(BELOW_OUTSIDE),
            above_inside: marks.has(ABOVE_INSIDE),
            below_inside: marks.has(BELOW_INSIDE),
            both_above: marks.has(BOTH_ABOVE),
            both_below: marks.has(BOTH_BELOW),
            opposite: marks.has(OPPOSITE),
        }
    }
}

// The classes of both objects of a scene that is taken. Of notes that bytes hold they are the bytes' own.
pub fn classes_of(taken: TakenScene<'_>, notes: &Notes) -> ClassesOfBoth
    ensures is { (result.f ≡ classes_of_f taken.entry.bytes.now taken.entry.scene notes.now) × (result.g ≡ classes_of_g taken.entry.bytes.now taken.entry.scene notes.now) }
    ensures of_bytes { (bytes : List ℕ) → notes.now ≡ map as_read (take 2048 bytes)
        → (result.f ≡ classes_of_f taken.entry.bytes.now taken.entry.scene bytes) × (result.g ≡ classes_of_g taken.entry.bytes.now taken.entry.scene bytes) }
{
    let pair = taken.read().pair();
    let f = pair.own();
    let g = pair.other();
    let mut of_f = MarkSet::NONE;
    let mut of_g = MarkSet::NONE;
    for step in Merged::of(pair) {
        match step {
            Step::OfF { i, .. } => of_f = of_f.with(unshared(f.ia(i), notes.of(true, i))),
            Step::OfG { j, .. } => of_g = of_g.with(unshared(g.ia(j), notes.of(false, j))),
            Step::OfBoth { i, j } => {
                let above_f = f.ia(i);
                let above_g = g.ia(j);
                of_f = of_f.with(shared(above_f, above_g));
                of_g = of_g.with(shared(above_g, above_f));
            }
        }
    }
    ClassesOfBoth {
        f: of_f.into(),
        g: of_g.into(),
    }
}
