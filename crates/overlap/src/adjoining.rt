// The byte of a segment of two regions, by the sides where their interiors adjoin it: by ia, and by the sweep's note.
ghost use Rattle.std.specs.Prelude.{ℕ, ◌≡◌, not, ◌&&◌, ◌+◌, ◌*◌, ◌<◌, eqb};
ghost use Rattle.whole.specs.Count.{bit};
ghost use Rattle.scene.specs.Conditions.{ia};
ghost use Rattle.sweep_notes.specs.Numbers.{note_number, as_read};

use scene_segments::Object;
use sweep_notes::Note;

// Whether the interior of a region, or of a part of two, adjoins a segment below (right, if vertical) and above (left).
#[derive(Clone, Copy)]
pub struct Sides {
    pub below: bool,
    pub above: bool,
}

// Kept as `&`, which asks both sides always: by `&&` the areas question took up to 1.007 of the instructions.
impl Sides {
    // Of what is in both.
    pub fn and(self, other: Sides) -> Sides
        ensures { (result.below ≡ self.below && other.below) × (result.above ≡ self.above && other.above) }
    {
        Sides {
            below: self.below & other.below,
            above: self.above & other.above,
        }
    }

    // Of what is in this one and not in the other.
    pub fn without(self, other: Sides) -> Sides
        ensures { (result.below ≡ self.below && not other.below) × (result.above ≡ self.above && not other.above) }
    {
        Sides {
            below: self.below & !other.below,
            above: self.above & !other.above,
        }
    }
}

// Of the segment of one of its own elements, by ia.
pub fn own_sides(o: Object<'_>, i: usize) -> Sides
    requires { i < o.layout.count }
    ensures { (result.below ≡ not (ia o.entry.bytes.now o.entry.layout i)) × (result.above ≡ ia o.entry.bytes.now o.entry.layout i) }
{
    let above = o.ia(i);
    Sides {
        below: !above,
        above,
    }
}

// And of a segment that is none of its own, by the sweep's note of it, or by the byte that it is of.
#[tactic(auto, using(sweep_notes::proofs::AsRead::even_read))]
pub fn noted_sides(note: Note) -> Sides
    ensures is { (result.below ≡ not (eqb (note_number note) 0)) × (result.above ≡ not (eqb (note_number note) 0)) }
    ensures of_byte { (byte : ℕ) → note_number note ≡ as_read byte → (result.below ≡ not (eqb byte 0)) × (result.above ≡ not (eqb byte 0)) }
{
    let inside = note != Note::Even;
    Sides {
        below: inside,
        above: inside,
    }
}

// 3m + n: m is how many of two regions adjoin the segment below, n how many above.
pub fn coded(f: Sides, g: Sides) -> u8
    ensures { result ≡ 3 * (bit f.below + bit g.below) + (bit f.above + bit g.above) }
{
    let m = f.below as u8 + g.below as u8;
    let n = f.above as u8 + g.above as u8;
    3 * m + n
}
