// The four values of a set of points, as document 02's Paper 8 has them, and the byte that each is written as. What a value says of the points, and that no set
// has two of them, is in specs and proofs.
#![tactic(auto)]

ghost use Rattle.std.specs.Prelude.{◌≡◌};
ghost use Rattle.plane_dimensions.specs.Dimensions.{sign};

// Written F, 0, 1 and 2.
#[derive(Clone, Copy, PartialEq, Eq)]
pub enum Dimension {
    Empty,
    Points,
    Length,
    Area,
}

impl From<Dimension> for u8 {
    ghost from_gives = { λ dimension byte. byte ≡ sign dimension };

    fn from(dimension: Dimension) -> u8 {
        match dimension {
            Dimension::Empty => b'F',
            Dimension::Points => b'0',
            Dimension::Length => b'1',
            Dimension::Area => b'2',
        }
    }
}
