// The wanted masks: which flags each pair of types has, which of them are wanted, and whether a wanted bit has no flag; and the flags that a cell of the matrix is read off.
#![tactic(auto)]

ghost use Rattle.std.specs.Prelude.{◌≡◌, cond, map, ◌<◌, get_or};
ghost use Rattle.scene.specs.Read.{shape_number};
ghost use Rattle.flags_masks.specs.Wanted.{mask_of_f, mask_of_g, entry_of, place_in, cell_masks_in, is_nothing, masks_for, any_stray, exceeds, meets};

use scene::{Scene, Shape};

// A mask for each object, a bit for each flag.
// Kept beside `flags_vectors::Vectors`, and no type for both: by its type a vector is not taken for a mask.
#[derive(Clone, Copy)]
pub struct FlagMasks {
    pub f: u16,
    pub g: u16,
}

impl FlagMasks {
    // No flag of either object.
    pub const NONE: FlagMasks = FlagMasks { f: 0, g: 0 };

    // Is there a flag here that is none of `all`?
    #[tactic(auto, unfolding(crate::specs::Wanted::has_stray))]
    pub fn exceeds(self, all: FlagMasks) -> bool
        ensures { result ≡ exceeds self all }
    {
        self.f & all.f != self.f || self.g & all.g != self.g
    }

    // Is there a flag here that is one of `some`?
    pub fn meets(self, some: FlagMasks) -> bool
        ensures { result ≡ meets self some }
    {
        self.f & some.f != 0 || self.g & some.g != 0
    }
}

// What is wanted of a scene: the flags of two masks, all that its pair of types has, or those that some of the nine cells are read off. Cells are a bit each, row
// by row, in the caller's order. Kept as a word, and no nine bools: it is packed and read as flags are.
#[derive(Clone, Copy)]
pub enum Wanted {
    These(FlagMasks),
    All,
    Cells(u16),
}

// All nine cells.
const EVERY_CELL: u16 = 511;

impl Wanted {
    // Is no flag wanted, whatever the pair of types?
    pub fn is_nothing(self) -> bool
        ensures { result ≡ is_nothing self }
    {
        match self {
            Wanted::These(masks) => masks.f == 0 && masks.g == 0,
            Wanted::All => false,
            Wanted::Cells(cells) => cells == 0,
        }
    }
}

// The flags that each pair of types has. F's type is never above G's.
// Kept as two types, here and in flags_table: a function matches on both at once or hands them to one that does, and the definitions take them one by one; a
// struct of the two would only be taken apart.
pub fn masks_of(f: Shape, g: Shape) -> FlagMasks
    ensures { (result.f ≡ mask_of_f (shape_number f) (shape_number g)) × (result.g ≡ mask_of_g (shape_number f) (shape_number g)) }
{
    match (f, g) {
        (Shape::Points, Shape::Points) => FlagMasks { f: 3, g: 1 },
        (Shape::Points, Shape::Line) => FlagMasks { f: 7, g: 1 },
        (Shape::Points, Shape::Region) => FlagMasks { f: 7, g: 0 },
        (Shape::Line, Shape::Line) => FlagMasks { f: 63, g: 7 },
        (Shape::Line, Shape::Region) => FlagMasks { f: 127, g: 1 },
        (Shape::Region, Shape::Region) => FlagMasks { f: 255, g: 15 },
        (Shape::Line, Shape::Points) | (Shape::Region, Shape::Points | Shape::Line) =>
            FlagMasks::NONE,
    }
}

// The flags that each cell of a scene's pair of types is read off, row by row.
fn cell_masks(scene: Scene) -> [FlagMasks; 9]
    ensures { result ≡ map entry_of (cell_masks_in scene) }
{
    match (scene.f.shape, scene.g.shape) {
        (Shape::Points, Shape::Points) => [
            FlagMasks { f: 2, g: 0 },
            FlagMasks::NONE,
            FlagMasks { f: 1, g: 0 },
            FlagMasks::NONE,
            FlagMasks::NONE,
            FlagMasks::NONE,
            FlagMasks { f: 0, g: 1 },
            FlagMasks::NONE,
            FlagMasks::NONE,
        ],
        (Shape::Points, Shape::Line) => [
            FlagMasks { f: 2, g: 0 },
            FlagMasks { f: 4, g: 0 },
            FlagMasks { f: 1, g: 0 },
            FlagMasks::NONE,
            FlagMasks::NONE,
            FlagMasks::NONE,
            FlagMasks::NONE,
            FlagMasks { f: 0, g: 1 },
            FlagMasks::NONE,
        ],
        (Shape::Points, Shape::Region) => [
            FlagMasks { f: 1, g: 0 },
            FlagMasks { f: 2, g: 0 },
            FlagMasks { f: 4, g: 0 },
            FlagMasks::NONE,
            FlagMasks::NONE,
            FlagMasks::NONE,
            FlagMasks::NONE,
            FlagMasks::NONE,
            FlagMasks::NONE,
        ],
        (Shape::Line, Shape::Line) => [
            FlagMasks { f: 3, g: 0 },
            FlagMasks { f: 0, g: 2 },
            FlagMasks { f: 4, g: 0 },
            FlagMasks { f: 8, g: 0 },
            FlagMasks { f: 16, g: 0 },
            FlagMasks { f: 32, g: 0 },
            FlagMasks { f: 0, g: 1 },
            FlagMasks { f: 0, g: 4 },
            FlagMasks::NONE,
        ],
        (Shape::Line, Shape::Region) => [
            FlagMasks { f: 1, g: 0 },
            FlagMasks { f: 10, g: 0 },
            FlagMasks { f: 4, g: 0 },
            FlagMasks { f: 16, g: 0 },
            FlagMasks { f: 32, g: 0 },
            FlagMasks { f: 64, g: 0 },
            FlagMasks::NONE,
            FlagMasks { f: 0, g: 1 },
            FlagMasks::NONE,
        ],
        (Shape::Region, Shape::Region) => [
            FlagMasks { f: 60, g: 12 },
            FlagMasks { f: 0, g: 12 },
            FlagMasks { f: 67, g: 12 },
            FlagMasks { f: 12, g: 0 },
            FlagMasks { f: 240, g: 0 },
            FlagMasks { f: 3, g: 0 },
            FlagMasks { f: 76, g: 3 },
            FlagMasks { f: 0, g: 3 },
            FlagMasks::NONE,
        ],
        (Shape::Line, Shape::Points) | (Shape::Region, Shape::Points | Shape::Line) =>
            [FlagMasks::NONE; 9],
    }
}

// Where a cell of the caller's stands in the row of its pair: with the objects exchanged, rows are columns.
fn cell_place(turned: bool, at: usize) -> usize
    requires { at < 9 }
    ensures { (result ≡ place_in turned at) × (result < 9) }
{
    if turned { at % 3 * 3 + at / 3 } else { at }
}

// The flags that some cells are read off: of all nine all that the pair of types has, and then no cell is looked up.
fn masks_of_cells(cells: u16, scene: Scene) -> FlagMasks
    ensures { result ≡ masks_for (Wanted.Cells cells) scene }
{
    if cells == EVERY_CELL {
        return masks_of(scene.f.shape, scene.g.shape);
    }
    let row = cell_masks(scene);
    let turned = scene.is_turned();
    let mut f: u16 = 0;
    let mut g: u16 = 0;
    for at in 0..9 {
        if flags::has_bit(cells, at) {
            let masks = row[cell_place(turned, at)];
            f |= masks.f;
            g |= masks.g;
        }
    }
    FlagMasks { f, g }
}

// Two masks in the caller's order, as those of F and of G.
#[tactic(auto, unfolding(crate::specs::Wanted::masks_for))]
fn arranged(masks: FlagMasks, scene: Scene) -> FlagMasks
    ensures { result ≡ masks_for (Wanted.These masks) scene }
{
    FlagMasks {
        f: scene.as_given(masks.f, masks.g),
        g: scene.as_given(masks.g, masks.f),
    }
}

// The masks of what is wanted, of F and of G.
#[tactic(auto, unfolding(crate::specs::Wanted::masks_for))]
pub fn masks_for(wanted: Wanted, scene: Scene) -> FlagMasks
    ensures { result ≡ masks_for wanted scene }
{
    match wanted {
        Wanted::These(masks) => arranged(masks, scene),
        Wanted::All => masks_of(scene.f.shape, scene.g.shape),
        Wanted::Cells(cells) => masks_of_cells(cells, scene),
    }
}

// 9: is a bit wanted that has no flag?
pub fn any_stray(scene: Scene, wanted: FlagMasks) -> bool
    ensures { result ≡ any_stray (shape_number scene.f.shape) (shape_number scene.g.shape) wanted.f wanted.g }
{
    wanted.exceeds(masks_of(scene.f.shape, scene.g.shape))
}
