// The cells question: the nine-intersection matrix of the two objects of a scene.
#![tactic(auto)]

use scene::Shape;

// What a taken scene's cells follow from, in the caller's order: the two types, the two vectors with every flag wanted, and which objects are empty.
// Kept flat, and no struct for each object: nine places name the fields (five functions, three definitions, a lemma). A struct would shorten `exchanged`, and the
// lemma if a helper made it; the others would take it apart at once, since a matrix is read off the six one by one.
#[derive(Clone, Copy)]
pub struct Explored {
    pub f: Shape,
    pub g: Shape,
    pub v: u16,
    pub w: u16,
    pub f_empty: bool,
    pub g_empty: bool,
}

pub mod question;
pub mod table;
