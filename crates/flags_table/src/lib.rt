// The flags of two objects, read off how their elements meet at points and off the classes of their segments: the table of specs/Table.antt, pair by pair.
#![tactic(auto)]

ghost use Rattle.std.specs.Prelude.{◌≡◌};
ghost use Rattle.flags.specs.Flags.{pack};
ghost use Rattle.flags_table.specs.Table.{alone, shared, unshared, flags_of_f_by, flags_of_g_by};

use flags::packed;
use flags_classes::Classes;
use flags_meetings::Meetings;
use scene::Shape;

pub mod walks;

// A point bound in F that is none of G's.
fn alone(m: Meetings) -> bool
    ensures { result ≡ alone m }
{
    m.bound_outside || m.bound_inside || m.bound_on
}

// A segment that is one of the other object's.
fn shared(c: Classes) -> bool
    ensures { result ≡ shared c }
{
    c.both_above || c.both_below || c.opposite
}

// A segment that is none of the other object's.
fn unshared(c: Classes) -> bool
    ensures { result ≡ unshared c }
{
    c.above_outside || c.below_outside || c.above_inside || c.below_inside
}

// ---- by the types of both objects

// The vector of F with every flag, by the meetings of both objects and the classes of F. A pair with F's type above G's has no flags.
pub fn flags_of_f(f: Shape, g: Shape, m: Meetings, c: Classes) -> u16
    ensures { result ≡ pack (flags_of_f_by f g m c) }
{
    match (f, g) {
        (Shape::Points, Shape::Points) => packed([
            alone(m), // poi_disjoint
            m.bound_bound, // poi_shared
        ]),
        (Shape::Points, Shape::Line) => packed([
            m.bound_outside || m.bound_inside, // poi_disjoint
            m.bound_on || m.bound_inner, // poi_on_interior
            m.bound_bound, // poi_on_bound
        ]),
        (Shape::Points, Shape::Region) => packed([
            m.bound_inside, // poi_inside
            m.bound_on || m.bound_bound || m.bound_inner, // poi_on_bound
            m.bound_outside, // poi_outside
        ]),
        (Shape::Line, Shape::Line) => packed([
            shared(c), // seg_shared
            m.inner_inner, // interior_poi_shared
            unshared(c), // seg_unshared
            m.bound_inner, // bound_on_interior
            m.bound_bound, // bound_shared
            alone(m), // bound_disjoint
        ]),
        (Shape::Line, Shape::Region) => packed([
            c.above_inside || c.below_inside, // seg_inside
            shared(c), // seg_shared
            c.above_outside || c.below_outside, // seg_outside
            m.inner_bound || m.inner_inner, // poi_shared
            m.bound_inside, // bound_inside
            m.bound_bound || m.bound_inner, // bound_shared
            m.bound_outside, // bound_disjoint
        ]),
        (Shape::Region, Shape::Region) => packed([
            c.above_outside, // (0/1)
            c.below_outside, // (1/0)
            c.above_inside, // (1/2)
            c.below_inside, // (2/1)
            c.both_above, // (0/2)
            c.both_below, // (2/0)
            c.opposite, // (1/1)
            m.bound_bound || m.bound_inner || m.inner_bound || m.inner_inner, // bound_poi_shared
        ]),
        (Shape::Line, Shape::Points) | (Shape::Region, Shape::Points | Shape::Line) => 0,
    }
}

// The vector of G with every flag, by the meetings of both objects and the classes of G.
// Kept beside `flags_of_f`: the two are tables of their own. Of the rows that have flags only that of two regions begins alike, with the same four classes.
pub fn flags_of_g(f: Shape, g: Shape, m: Meetings, c: Classes) -> u16
    ensures { result ≡ pack (flags_of_g_by f g m c) }
{
    match (f, g) {
        (Shape::Points, Shape::Points) => packed([
            m.bound_of_g, // poi_disjoint
        ]),
        (Shape::Points, Shape::Line) => packed([
            m.bound_of_g, // bound_poi_disjoint
        ]),
        (Shape::Line, Shape::Line) => packed([
            unshared(c), // seg_unshared
            m.inner_bound, // bound_on_interior
            m.bound_of_g, // bound_disjoint
        ]),
        (Shape::Line, Shape::Region) => packed([
            unshared(c), // seg_unshared
        ]),
        (Shape::Region, Shape::Region) => packed([
            c.above_outside, // (0/1)
            c.below_outside, // (1/0)
            c.above_inside, // (1/2)
            c.below_inside, // (2/1)
        ]),
        (Shape::Points, Shape::Region)
        | (Shape::Line, Shape::Points)
        | (Shape::Region, Shape::Points | Shape::Line) => 0,
    }
}
