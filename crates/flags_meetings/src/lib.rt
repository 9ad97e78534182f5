// Where elements of two objects meet: one walk over the points of both, in their order, by their keys.
#![tactic(auto)]

ghost use Rattle.std.specs.Prelude.{ℕ, ◌≡◌, ◌<◌, ◌≤◌, List, map, take};
ghost use Rattle.plane.specs.Plane.{is_boundary};
ghost use Rattle.scene.specs.Conditions.{out_of_order};
ghost use Rattle.flags_meetings.specs.Met.{meetings};
ghost use Rattle.scene_keys.specs.Keyed.{top, keys};
ghost use Rattle.sweep_notes.specs.Numbers.{note_number, as_read};
ghost use Rattle.flags_meetings.specs.Keyed.{Passed, mark_of_note, marks_of_notes, marks, named};

use flags::MarkSet;
use scene_keys::Cursor;
use scene_segments::Pair;
use sweep_notes::{Note, Notes};

/// How elements of F and of G meet at points: for each kind of point, whether there is one. By the number of an object's elements that have it, its degree
/// there, a point is bound in the object if the boundary rule holds of the degree, and inner if some element has it and the rule does not hold.
#[derive(Clone, Copy, Default)]
pub struct Meetings {
    // Bound in F, and none of G's: outside G, inside G or on it, by an even note, an odd one, or `On`. Beside a line the first two are both "off it".
    pub bound_outside: bool,
    pub bound_inside: bool,
    pub bound_on: bool,
    // Of both, by its kind in F and its kind in G.
    pub bound_bound: bool,
    pub bound_inner: bool,
    pub inner_bound: bool,
    pub inner_inner: bool,
    // Bound in G, and none of F's.
    pub bound_of_g: bool,
}

// The walk collects them as marks.
const BOUND_OUTSIDE: MarkSet = MarkSet(1);

const BOUND_INSIDE: MarkSet = MarkSet(2);

const BOUND_ON: MarkSet = MarkSet(4);

const BOUND_BOUND: MarkSet = MarkSet(8);

const BOUND_INNER: MarkSet = MarkSet(16);

const INNER_BOUND: MarkSet = MarkSet(32);

const INNER_INNER: MarkSet = MarkSet(64);

const BOUND_OF_G: MarkSet = MarkSet(128);

// Moves a cursor from its element past those that have the key k. In place, as `advance` is.
// Kept as a while: it ends by the key, and index, offset and key run along together.
pub fn pass(c: &mut Cursor<'_>, k: u64)
    requires { k < top }
    ensures of { (c.new.object.bytes.now ≡ c.old.object.bytes.now) × (c.new.object.layout ≡ c.old.object.layout) }
    ensures passed { Passed c.old.object.layout.count (keys c.old.object.bytes.now c.old.object.layout) k c.old.index c.new.index }
{
    while c.key == k {
        c.advance();
    }
}

// The boundary rule of a line: an odd number of its segments end at the point.
#[tactic(auto, unfolding(plane::specs::Plane::is_boundary, whole::specs::Count::odd))]
pub fn is_bound(degree: usize) -> bool
    ensures { result ≡ is_boundary degree }
{
    degree % 2 == 1
}

// The mark of a note, of a point that is bound in F and none of G's.
fn mark_of_note(note: Note) -> MarkSet
    ensures { result.0 ≡ mark_of_note (note_number note) }
{
    match note {
        Note::Even => BOUND_OUTSIDE,
        Note::Odd => BOUND_INSIDE,
        Note::On => BOUND_ON,
    }
}

// Those of the notes of the elements of F from i up to j, which have such a point. Beside a region the notes are alike; beside a line they need not be.
fn marks_of_notes(notes: &Notes, i: usize, j: usize) -> MarkSet
    requires { (i ≤ j) × (j ≤ 1024) }
    ensures { result.0 ≡ marks_of_notes notes.now i j }
{
    let mut marks = MarkSet::NONE;
    for m in i..j {
        marks = marks.with(mark_of_note(notes.of(true, m)));
    }
    marks
}

// The marks of a point that the elements of F from i up to j have, and b of G.
fn meeting(notes: &Notes, i: usize, j: usize, b: usize) -> MarkSet
    requires { (i ≤ j) × (j ≤ 1024) }
    ensures { result.0 ≡ marks notes.now i j b }
{
    let a = j - i;
    if a == 0 {
        return if is_bound(b) {
            BOUND_OF_G
        } else {
            MarkSet::NONE
        };
    }
    if b == 0 {
        return if is_bound(a) {
            marks_of_notes(notes, i, j)
        } else {
            MarkSet::NONE
        };
    }
    match (is_bound(a), is_bound(b)) {
        (true, true) => BOUND_BOUND,
        (true, false) => BOUND_INNER,
        (false, true) => INNER_BOUND,
        (false, false) => INNER_INNER,
    }
}

// What marks stand for; of none there are no meetings.
impl From<MarkSet> for Meetings {
    ghost from_gives = { λ marks all. all ≡ named marks.0 };

    fn from(marks: MarkSet) -> Meetings {
        Meetings {
            bound_outside: marks.has(BOUND_OUTSIDE),
            bound_inside: marks.has(BOUND_INSIDE),
            bound_on: marks.has(BOUND_ON),
            bound_bound: marks.has(BOUND_BOUND),
            bound_inner: marks.has(BOUND_INNER),
            inner_bound: marks.has(INNER_BOUND),
            inner_inner: marks.has(INNER_INNER),
            bound_of_g: marks.has(BOUND_OF_G),
        }
    }
}

// How elements of both objects meet, point by point: F is the own one, whose notes count, and G the other. Of notes that bytes hold they are the bytes' own.
// Kept as a while: each cursor moves by the elements that have the point, which no range or slice gives.
pub fn meetings_of(pair: Pair<'_>, notes: &Notes) -> Meetings
    requires { (out_of_order pair.bytes.now pair.own ≡ None) × (out_of_order pair.bytes.now pair.other ≡ None) }
    ensures is { result ≡ meetings pair.entry.bytes.now (record { f = pair.entry.own; g = pair.entry.other }) notes.now }
    ensures of_bytes { (bytes : List ℕ) → notes.now ≡ map as_read (take 2048 bytes) → result ≡ meetings pair.entry.bytes.now (record { f = pair.entry.own; g = pair.entry.other }) bytes }
{
    let mut c = Cursor::first(pair.own());
    let mut d = Cursor::first(pair.other());
    let mut sofar = MarkSet::NONE;
    let mut k = c.key.min(d.key);
    while k < scene_keys::TOP {
        let i = c.index;
        let j = d.index;
        pass(&mut c, k);
        pass(&mut d, k);
        sofar = sofar.with(meeting(notes, i, c.index, d.index - j));
        k = c.key.min(d.key);
    }
    sofar.into()
}
