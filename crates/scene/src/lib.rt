// A scene's bytes: taken, with the layout of its two objects, or refused with one number and one place, as document 01 says.
// Elements are read where they stand in the bytes; nothing is copied out of them.
#![tactic(auto)]

ghost use Rattle.std.specs.Prelude.{◌≡◌, Err};
ghost use Rattle.scene.specs.Read.{flaw_number, flaw_of, number_of};

// An object's type: 1, 2, 3 in a type record, and in the order of these numbers.
#[derive(Clone, Copy, PartialEq, Eq, PartialOrd, Ord)]
pub enum Shape {
    Points,
    Line,
    Region,
}

// What a record is, by its kind byte: a type record starts an object.
// Kept with `Unknown`, and no Option of a kind: every byte has a kind in the definitions too (`kind_of`), and where it is wrong, it is so beside other kinds.
#[derive(Clone, Copy)]
pub enum Kind {
    Start,
    Element(Shape),
    End,
    Unknown,
}

// An object in the bytes: its type, the offset of its type record, and how many elements follow that record.
#[derive(Clone, Copy)]
pub struct Layout {
    pub shape: Shape,
    pub start: usize,
    pub count: usize,
}

// The two objects of a scene, F's type not above G's.
#[derive(Clone, Copy)]
pub struct Scene {
    pub f: Layout,
    pub g: Layout,
}

// What can be wrong with objects whose records are good: the conditions 10 to 15.
#[derive(Clone, Copy)]
pub enum Flaw {
    Misplaced,
    Unpaired,
    Touching,
    OddEnd,
    WrongIa,
    TouchingAcross,
}

impl From<Flaw> for u8 {
    ghost from_gives = { λ flaw n. n ≡ flaw_number flaw };

    fn from(flaw: Flaw) -> u8 {
        match flaw {
            Flaw::Misplaced => 10,
            Flaw::Unpaired => 11,
            Flaw::Touching => 12,
            Flaw::OddEnd => 13,
            Flaw::WrongIa => 14,
            Flaw::TouchingAcross => 15,
        }
    }
}

impl From<u8> for Flaw {
    ghost from_gives = { λ n flaw. flaw ≡ flaw_of n };

    #[tactic(auto, unfolding(crate::specs::Read::flaw_of))]
    fn from(n: u8) -> Flaw {
        match n {
            10 => Flaw::Misplaced,
            11 => Flaw::Unpaired,
            12 => Flaw::Touching,
            13 => Flaw::OddEnd,
            14 => Flaw::WrongIa,
            _ => Flaw::TouchingAcross,
        }
    }
}

// Why something is turned away, each with its number in document 01's table or in the request that it came with. 8 is no longer given.
#[derive(Clone, Copy)]
pub enum Reason {
    CutShort,
    WrongKind,
    WrongField,
    OutOfRange,
    EndsReversed,
    TooMany,
    MoreBytes,
    StrayFlag,
    Flawed(Flaw),
    NotRegions,
    ShortBuffer,
    BadSummary,
    OffGrid,
    TooManyElements,
    NoRoom,
    NotNine,
    NoCharacter,
    Malformed,
    BadWindow,
    TooManySummaries,
}

impl From<Reason> for u8 {
    ghost from_gives = { λ reason n. n ≡ number_of reason };

    fn from(reason: Reason) -> u8 {
        match reason {
            Reason::CutShort => 1,
            Reason::WrongKind => 2,
            Reason::WrongField => 3,
            Reason::OutOfRange => 4,
            Reason::EndsReversed => 5,
            Reason::TooMany => 6,
            Reason::MoreBytes => 7,
            Reason::StrayFlag => 9,
            Reason::Flawed(flaw) => u8::from(flaw),
            Reason::NotRegions => 16,
            Reason::ShortBuffer => 17,
            Reason::BadSummary => 18,
            Reason::OffGrid => 19,
            Reason::TooManyElements => 20,
            Reason::NoRoom => 21,
            Reason::NotNine => 22,
            Reason::NoCharacter => 23,
            Reason::Malformed => 24,
            Reason::BadWindow => 27,
            Reason::TooManySummaries => 28,
        }
    }
}

// A refusal: why, and a byte offset.
#[derive(Clone, Copy)]
pub struct Refusal {
    pub reason: Reason,
    pub place: usize,
}

impl Reason {
    // A refusal for this reason at a place.
    pub fn at<T>(self, place: usize) -> Result<T, Refusal>
        ensures { result ≡ Err (record { reason = self; place = place }) }
    {
        Err(Refusal {
            reason: self,
            place,
        })
    }
}

pub mod bytes;
pub mod order;
pub mod records;
