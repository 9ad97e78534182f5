// Records: the kind byte, a type and its number, and where the records of an object stand.
ghost use Rattle.std.specs.Prelude.{◌≡◌, ◌<◌, ◌^◌};
ghost use Rattle.scene.specs.Read.{kind_of, shape_number, shape_of, size, place, after};
ghost use Rattle.scene.specs.Conditions.{has_segments, is_region};

use crate::{Kind, Layout, Shape};

impl From<u8> for Kind {
    ghost from_gives = { λ byte kind. kind ≡ kind_of byte };

    #[tactic(auto, unfolding(crate::specs::Read::kind_of))]
    fn from(byte: u8) -> Kind {
        match byte {
            84 => Kind::Start,
            80 => Kind::Element(Shape::Points),
            76 => Kind::Element(Shape::Line),
            82 => Kind::Element(Shape::Region),
            69 => Kind::End,
            _ => Kind::Unknown,
        }
    }
}

// Kept as a function. A `From` would say that each number is a type's. A `TryFrom` would not serve `summary_record`, which reads a type before it tests its
// number, by `shape_of`: of a number that no type has it makes a region's. And beside this one it would be a second reading of the same numbers.
#[tactic(auto, unfolding(crate::specs::Read::shape_of))]
pub fn shape(n: u8) -> Shape
    ensures { result ≡ shape_of n }
{
    match n {
        1 => Shape::Points,
        2 => Shape::Line,
        _ => Shape::Region,
    }
}

// In a type record.
impl From<Shape> for u8 {
    ghost from_gives = { λ k n. n ≡ shape_number k };

    fn from(k: Shape) -> u8 {
        match k {
            Shape::Points => 1,
            Shape::Line => 2,
            Shape::Region => 3,
        }
    }
}

impl Shape {
    pub fn has_segments(self) -> bool
        ensures { result ≡ has_segments self }
    {
        matches!(self, Shape::Line | Shape::Region)
    }

    pub fn is_region(self) -> bool
        ensures { result ≡ is_region self }
    {
        matches!(self, Shape::Region)
    }

    // How many bytes the record of an element takes.
    pub fn size(self) -> usize
        ensures { result ≡ size self }
    {
        match self {
            Shape::Points => 9,
            Shape::Line => 18,
            Shape::Region => 19,
        }
    }
}

impl Layout {
    // Where the record of an element stands.
    pub fn place(self, i: usize) -> usize
        requires { place self i < 2 ^ 64 }
        ensures { result ≡ place self i }
    {
        self.start + 2 + i * self.shape.size()
    }

    // The first offset after the object.
    pub fn after(self) -> usize
        requires { after self < 2 ^ 64 }
        ensures { result ≡ after self }
    {
        self.place(self.count) + 1
    }
}
