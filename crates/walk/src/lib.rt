// A walk over the events of a scene that may be put down: the beginning lays the marks of all events, in their order, in a lent buffer, the ground; portions only read it, and the state is small
// and goes by value. What comes back as either may be anything: any four bytes of a ground are marks, and a state that does not fit the ground is refused.
#![tactic(auto)]

use flags_masks::FlagMasks;
use flags_vectors::Vectors;
use scene::Shape;

pub mod begin;
mod laying;
pub mod portion;

// As many events as a scene may have: each is an element of one object or of both.
const MOST: usize = 2_048;

/// The state of a walk: the types of F and of G, F's not above G's, and whether the caller gave them the other way round; the wanted flags of each; how many events the scene has, how many of
/// them are taken, and the wanted flags that are set.
#[derive(Clone, Copy)]
pub struct Walk {
    pub f: Shape,
    pub g: Shape,
    pub is_turned: bool,
    pub want: FlagMasks,
    pub events: usize,
    pub taken: usize,
    pub found: Vectors,
}
