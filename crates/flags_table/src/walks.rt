// Which of the two walks wanted flags are read off, so that a walk that none of them needs is left out.
ghost use Rattle.std.specs.Prelude.{◌≡◌};
ghost use Rattle.flags.specs.Flags.{pack};
ghost use Rattle.flags_table.specs.Walks.{off_classes_f, off_classes_g, reads_meetings, reads_classes};

use flags_masks::FlagMasks;
use scene::Shape;

// The flags of F and of G that are read off the classes of segments.
pub type ClassFlags = FlagMasks;

// Every other flag is read off the meetings at points.
fn class_flags(f: Shape, g: Shape) -> ClassFlags
    ensures { (result.f ≡ pack (off_classes_f f g)) × (result.g ≡ pack (off_classes_g f g)) }
{
    match (f, g) {
        (Shape::Line, Shape::Line) => FlagMasks { f: 5, g: 1 },
        (Shape::Line, Shape::Region) => FlagMasks { f: 7, g: 1 },
        (Shape::Region, Shape::Region) => FlagMasks { f: 127, g: 15 },
        _ => FlagMasks::NONE,
    }
}

// Is one of the wanted flags read off the meetings?
#[tactic(auto, unfolding(flags_masks::specs::Wanted::has_stray))]
pub fn reads_meetings(f: Shape, g: Shape, want: FlagMasks) -> bool
    ensures { result ≡ reads_meetings f g want.f want.g }
{
    want.exceeds(class_flags(f, g))
}

// Is one of the wanted flags read off the classes?
pub fn reads_classes(f: Shape, g: Shape, want: FlagMasks) -> bool
    ensures { result ≡ reads_classes f g want.f want.g }
{
    want.meets(class_flags(f, g))
}
