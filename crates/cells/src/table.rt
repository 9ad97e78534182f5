// The nine-intersection matrix of two objects, each cell as one of four values, from their types, vectors and emptiness alone.
#![tactic(auto, unfolding(cells_matrix::specs::Matrix::matrix_of))]

ghost use Rattle.std.specs.Prelude.{◌≡◌, ◌||◌, true, ◌<◌};
ghost use Rattle.flags.specs.Flags.{has_bit};
ghost use Rattle.cells_matrix.specs.Matrix.{value_if, length_or_points, no_cells, matrix_of, transposed};
ghost use Rattle.cells.specs.Explored.{matrix_from};

use crate::Explored;
use flags::has_bit as has;
use plane_dimensions::Dimension;
use plane_dimensions::Dimension::{Area, Empty, Length, Points};
use scene::Shape;

// Is one of two bits set?
fn has_either(v: u16, k: usize, l: usize) -> bool
    requires { (k < 16) × (l < 16) }
    ensures { result ≡ (has_bit v k || has_bit v l) }
{
    has(v, k) || has(v, l)
}

// A cell with one value where its flags say so, and empty where not.
fn value_if(value: Dimension, holds: bool) -> Dimension
    ensures { result ≡ value_if value holds }
{
    if holds { value } else { Empty }
}

// A cell of two curves: a length where a segment is common, else points where an end is.
fn length_or_points(segment: bool, point: bool) -> Dimension
    ensures { result ≡ length_or_points segment point }
{
    if segment {
        Length
    } else {
        value_if(Points, point)
    }
}

// One matrix for each pair of types that does not descend: rows are interior, boundary, exterior of F, columns the same of G.
// Kept as a function each: nine cells of its own, read off the flags of its own pair of types, which the lines name.
fn points_points(v: u16, w: u16) -> [[Dimension; 3]; 3]
    ensures { result ≡ matrix_of Shape.Points Shape.Points v w true true }
{
    [
        [
            value_if(Points, has(v, 1)), // poi_shared
            Empty,
            value_if(Points, has(v, 0)), // poi_disjoint
        ],
        [Empty; 3],
        [
            value_if(Points, has(w, 0)), // poi_disjoint of G
            Empty,
            Area,
        ],
    ]
}

fn points_line(v: u16, w: u16, g_empty: bool) -> [[Dimension; 3]; 3]
    ensures { result ≡ matrix_of Shape.Points Shape.Line v w true g_empty }
{
    [
        [
            value_if(Points, has(v, 1)), // poi_on_interior
            value_if(Points, has(v, 2)), // poi_on_bound
            value_if(Points, has(v, 0)), // poi_disjoint
        ],
        [Empty; 3],
        [
            value_if(Length, !g_empty),
            value_if(Points, has(w, 0)), // bound_poi_disjoint of G
            Area,
        ],
    ]
}

fn points_region(v: u16, g_empty: bool) -> [[Dimension; 3]; 3]
    ensures { result ≡ matrix_of Shape.Points Shape.Region v 0 true g_empty }
{
    [
        [
            value_if(Points, has(v, 0)), // poi_inside
            value_if(Points, has(v, 1)), // poi_on_bound
            value_if(Points, has(v, 2)), // poi_outside
        ],
        [Empty; 3],
        [value_if(Area, !g_empty), value_if(Length, !g_empty), Area],
    ]
}

fn line_line(v: u16, w: u16) -> [[Dimension; 3]; 3]
    ensures { result ≡ matrix_of Shape.Line Shape.Line v w true true }
{
    [
        [
            length_or_points(has(v, 0), has(v, 1)), // seg_shared, interior_poi_shared
            value_if(Points, has(w, 1)), // bound_on_interior of G
            value_if(Length, has(v, 2)), // seg_unshared
        ],
        [
            value_if(Points, has(v, 3)), // bound_on_interior
            value_if(Points, has(v, 4)), // bound_shared
            value_if(Points, has(v, 5)), // bound_disjoint
        ],
        [
            value_if(Length, has(w, 0)), // seg_unshared of G
            value_if(Points, has(w, 2)), // bound_disjoint of G
            Area,
        ],
    ]
}

fn line_region(v: u16, w: u16, g_empty: bool) -> [[Dimension; 3]; 3]
    ensures { result ≡ matrix_of Shape.Line Shape.Region v w true g_empty }
{
    [
        [
            value_if(Length, has(v, 0)), // seg_inside
            length_or_points(has(v, 1), has(v, 3)), // seg_shared, poi_shared
            value_if(Length, has(v, 2)), // seg_outside
        ],
        [
            value_if(Points, has(v, 4)), // bound_inside
            value_if(Points, has(v, 5)), // bound_shared
            value_if(Points, has(v, 6)), // bound_disjoint
        ],
        [
            value_if(Area, !g_empty),
            value_if(Length, has(w, 0)), // seg_unshared of G
            Area,
        ],
    ]
}

// (1/2) or (2/1) of either, or (0/2) or (2/0): a segment with both interiors on one side.
fn both_interiors(v: u16, w: u16) -> bool
    ensures { result ≡ (has_bit v 2 || has_bit v 3 || has_bit w 2 || has_bit w 3 || has_bit v 4 || has_bit v 5) }
{
    has(v, 2) || has(v, 3) || has(w, 2) || has(w, 3) || has(v, 4) || has(v, 5)
}

// (0/1) or (1/0) of one's own, (1/1), or (1/2) or (2/1) of the other: a segment with one's own interior alone on one side.
fn own_interior(own: u16, other: u16, opposite: bool) -> bool
    ensures { result ≡ (has_bit own 0 || has_bit own 1 || opposite || has_bit other 2 || has_bit other 3) }
{
    has(own, 0) || has(own, 1) || opposite || has(other, 2) || has(other, 3)
}

// (0/2), (2/0) or (1/1): a segment in both boundaries; or bound_poi_shared.
fn both_boundaries(v: u16) -> Dimension
    ensures { result ≡ length_or_points (has_bit v 4 || has_bit v 5 || has_bit v 6) (has_bit v 7) }
{
    length_or_points(has(v, 4) || has(v, 5) || has(v, 6), has(v, 7))
}

fn region_region(v: u16, w: u16) -> [[Dimension; 3]; 3]
    ensures { result ≡ matrix_of Shape.Region Shape.Region v w true true }
{
    let opposite = has(v, 6); // (1/1)
    let inner = value_if(Area, both_interiors(v, w));
    let only_f = value_if(Area, own_interior(v, w, opposite));
    let only_g = value_if(Area, own_interior(w, v, opposite));
    [
        [
            inner,
            value_if(Length, has_either(w, 2, 3)), // (1/2) or (2/1) of G
            only_f,
        ],
        [
            value_if(Length, has_either(v, 2, 3)), // (1/2) or (2/1)
            both_boundaries(v),
            value_if(Length, has_either(v, 0, 1)), // (0/1) or (1/0)
        ],
        [
            only_g,
            value_if(Length, has_either(w, 0, 1)), // (0/1) or (1/0) of G
            Area,
        ],
    ]
}

// Nine empty cells.
pub fn none() -> [[Dimension; 3]; 3]
    ensures { result ≡ no_cells }
{
    [[Empty; 3]; 3]
}

// The matrix of two objects whose types do not descend.
fn ascending(e: Explored) -> [[Dimension; 3]; 3]
    ensures { result ≡ matrix_of e.f e.g e.v e.w e.f_empty e.g_empty }
{
    match (e.f, e.g) {
        (Shape::Points, Shape::Points) => points_points(e.v, e.w),
        (Shape::Points, Shape::Line) => points_line(e.v, e.w, e.g_empty),
        (Shape::Points, Shape::Region) => points_region(e.v, e.g_empty),
        (Shape::Line, Shape::Line) => line_line(e.v, e.w),
        (Shape::Line, Shape::Region) => line_region(e.v, e.w, e.g_empty),
        (Shape::Region, Shape::Region) => region_region(e.v, e.w),
        (Shape::Line, Shape::Points) | (Shape::Region, Shape::Points | Shape::Line) => none(),
    }
}

// The two objects exchanged.
fn exchanged(e: Explored) -> Explored
    ensures { result ≡ record { f = e.g; g = e.f; v = e.w; w = e.v; f_empty = e.g_empty; g_empty = e.f_empty } }
{
    Explored {
        f: e.g,
        g: e.f,
        v: e.w,
        w: e.v,
        f_empty: e.g_empty,
        g_empty: e.f_empty,
    }
}

// Rows for columns.
fn transposed(m: [[Dimension; 3]; 3]) -> [[Dimension; 3]; 3]
    ensures { result ≡ transposed m }
{
    [
        [m[0][0], m[1][0], m[2][0]],
        [m[0][1], m[1][1], m[2][1]],
        [m[0][2], m[1][2], m[2][2]],
    ]
}

// The matrix: a function of the types, the vectors and the emptiness of the two objects, and of nothing else.
pub fn matrix(e: Explored) -> [[Dimension; 3]; 3]
    ensures { result ≡ matrix_from e }
{
    if e.g < e.f {
        transposed(ascending(exchanged(e)))
    } else {
        ascending(e)
    }
}
