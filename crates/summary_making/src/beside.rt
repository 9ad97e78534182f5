// The object beside an empty one of its type, as a scene's bytes, and what the vectors question answers them.
ghost use Rattle.std.specs.Prelude.{◌≡◌, ◌++◌, ◌≤◌, length};
ghost use Rattle.scene.proofs.Taken.{longest};
ghost use Rattle.flags_vectors.specs.Vectors.{answer_of};
ghost use Rattle.check_alone.specs.Beside.{empty_of};

use arrayvec::ArrayVec;
use flags_masks::Wanted;
use flags_vectors::{SceneVectors, question};
use scene::{Refusal, Shape};

// The room is on the stack, since there is no heap.
pub fn answer(s: &[u8], k: Shape) -> Result<SceneVectors, Refusal>
    requires { length s.now ≤ longest }
    ensures { result ≡ answer_of (s.now ++ empty_of k) Wanted.All }
{
    let mut both = ArrayVec::<u8, { check_alone::ROOM }>::new();
    scene_writing::append(&mut both, s);
    check_alone::lay_empty(&mut both, k);
    question::answer(both.as_slice(), Wanted::All)
}
