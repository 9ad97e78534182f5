// The topological feature vectors of two objects.
#![tactic(auto)]

use scene::Scene;

// A 16-bit vector for each object: of F and G, or of the two objects in the caller's order.
#[derive(Clone, Copy)]
pub struct Vectors {
    pub f: u16,
    pub g: u16,
}

impl Vectors {
    // No flag of either object.
    pub const NONE: Vectors = Vectors { f: 0, g: 0 };
}

// With the scene that was read.
#[derive(Clone, Copy)]
pub struct SceneVectors {
    pub scene: Scene,
    pub vectors: Vectors,
}

pub mod question;
