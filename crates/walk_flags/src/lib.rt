// What taking events of a scene sets, off the table of flags: each leaves marks, by the degrees of its point, by its note, and by the class of its segment. Nothing is
// searched for.
#![tactic(auto)]

ghost use Rattle.std.specs.Prelude.{ℕ, ◌≡◌, ◌<◌};
ghost use Rattle.std.specs.Int.Bits.{bit_or};
ghost use Rattle.sweep_notes.specs.Numbers.{note_number};
ghost use Rattle.walk_flags.specs.OneTaken.{alone_marks, met_marks, marks_of_one, marks_of_two, marked_f, marked_g};

use flags::MarkSet;
use flags_masks::FlagMasks;
use scene::Shape;
use sweep_notes::Note;

/// How many elements of F and of G have a point.
#[derive(Clone, Copy)]
pub struct Degrees {
    pub f: usize,
    pub g: usize,
}

/// What the flags of an event ask of an element's segment: whether the element is a left halfsegment, and its ia.
#[derive(Clone, Copy)]
pub struct Side {
    pub is_left: bool,
    pub ia: bool,
}

/// The marks that elements of an object leave: of the meetings at their points, and of the classes of their segments, a byte each. Those of several elements are put together, and the table
/// is read off all of them at once.
#[derive(Clone, Copy)]
pub struct Marks {
    pub met: u8,
    pub classes: u8,
}

/// What is asked of each event: the types of F and of G, and the wanted flags of each.
#[derive(Clone, Copy)]
pub struct Asked {
    pub f: Shape,
    pub g: Shape,
    pub want: FlagMasks,
}

// The mark of the meeting at a point that is none of G's, by an element with this note: bit 0, 1 or 2 by the note, where the point is bound in F.
fn met_alone(of_f: usize, note: Note) -> u8
    ensures { result ≡ alone_marks of_f (note_number note) }
{
    if !flags_meetings::is_bound(of_f) {
        return 0;
    }
    match note {
        Note::Even => 1,
        Note::Odd => 2,
        Note::On => 4,
    }
}

// At a point of both, whatever the note: bits 3 to 6, by its kind in F and its kind in G.
fn met_by_both(at: Degrees) -> u8
    requires { (0 < at.f) × (0 < at.g) }
    ensures { (n : ℕ) → result ≡ met_marks at.f at.g n }
{
    let bound_g = flags_meetings::is_bound(at.g);
    if flags_meetings::is_bound(at.f) {
        if bound_g { 8 } else { 16 }
    } else {
        if bound_g { 32 } else { 64 }
    }
}

// At a point of G's alone: bit 7, where it is bound in G.
#[tactic(auto, using(crate::proofs::Additive::met_of_g))]
fn met_by_g(of_g: usize) -> u8
    requires { 0 < of_g }
    ensures { (n : ℕ) → result ≡ met_marks 0 of_g n }
{
    if flags_meetings::is_bound(of_g) {
        128
    } else {
        0
    }
}

// The marks of the meeting at a point, by an element with this note.
#[tactic(auto, using(crate::proofs::Additive::alone_is))]
fn met(at: Degrees, note: Note) -> u8
    ensures { result ≡ met_marks at.f at.g (note_number note) }
{
    if at.g == 0 {
        met_alone(at.f, note)
    } else if at.f == 0 {
        met_by_g(at.g)
    } else {
        met_by_both(at)
    }
}

// The mark of an element's class: a right halfsegment and a point have none.
#[tactic(auto, using(crate::proofs::Additive::unshared_small))]
fn class_alone(own: Side, note: Note) -> u8
    ensures { result ≡ marks_of_one own (note_number note) }
{
    if own.is_left {
        flags_classes::unshared(own.ia, note).0 as u8
    } else {
        0
    }
}

#[tactic(auto, using(crate::proofs::Additive::shared_small))]
fn class_of_both(own: Side, other: Side) -> u8
    ensures { result ≡ marks_of_two own other }
{
    if own.is_left {
        flags_classes::shared(own.ia, other.ia).0 as u8
    } else {
        0
    }
}

impl Marks {
    pub const NONE: Marks = Marks { met: 0, classes: 0 };

    pub fn with(self, more: Marks) -> Marks
        ensures { (result.met ≡ bit_or self.met more.met) × (result.classes ≡ bit_or self.classes more.classes) }
    {
        Marks {
            met: self.met | more.met,
            classes: self.classes | more.classes,
        }
    }

    // ---- of one event, at a point with these degrees

    // Of an element, with its note, that is an event of its object alone.
    pub fn alone(at: Degrees, note: Note, own: Side) -> Marks
        ensures { (result.met ≡ met_marks at.f at.g (note_number note)) × (result.classes ≡ marks_of_one own (note_number note)) }
    {
        Marks {
            met: met(at, note),
            classes: class_alone(own, note),
        }
    }

    // Of an element that is the same event as one of the other object. The note is that of the element of F.
    pub fn of_both(at: Degrees, note: Note, own: Side, other: Side) -> Marks
        ensures { (result.met ≡ met_marks at.f at.g (note_number note)) × (result.classes ≡ marks_of_two own other) }
    {
        Marks {
            met: met(at, note),
            classes: class_of_both(own, other),
        }
    }
}

impl Asked {
    // The wanted flags that marks of elements of F make, and those of G.
    pub fn of_f(self, marks: Marks) -> u16
        ensures { result ≡ marked_f self.f self.g self.want marks }
    {
        let met = MarkSet(marks.met as u16);
        let classes = MarkSet(marks.classes as u16);
        flags_table::flags_of_f(self.f, self.g, met.into(), classes.into()) & self.want.f
    }

    pub fn of_g(self, marks: Marks) -> u16
        ensures { result ≡ marked_g self.f self.g self.want marks }
    {
        let met = MarkSet(marks.met as u16);
        let classes = MarkSet(marks.classes as u16);
        flags_table::flags_of_g(self.f, self.g, met.into(), classes.into()) & self.want.g
    }
}
