// The cells question over a scene's bytes.
ghost use Rattle.std.specs.Prelude.{◌≡◌};
ghost use Rattle.scene.specs.Conditions.{check_scene};
ghost use Rattle.check_verdict.specs.SharedPoints.{CheckedMeans};
ghost use Rattle.cells.specs.Explored.{explored_by, cells_answer_of, cells_values, NoDimensionWrong};

use crate::{Explored, table};
use flags_masks::Wanted;
use flags_vectors::{Vectors, question};
use plane_dimensions::Dimension;
use scene::{Refusal, Scene};

// A scene that is taken, with two vectors of it.
pub fn explored(scene: Scene, both: Vectors) -> Explored
    ensures { result ≡ explored_by scene both }
{
    let first = scene.given_first();
    let second = scene.given_second();
    Explored {
        f: first.shape,
        g: second.shape,
        v: both.f,
        w: both.g,
        f_empty: first.count == 0,
        g_empty: second.count == 0,
    }
}

// What a scene's bytes are answered: for a scene that is taken, no cell has a wrong value; and what the verdict says in points.
pub fn explore(s: &[u8]) -> Result<Explored, Refusal>
    ensures { (result ≡ cells_answer_of s.now)
        × NoDimensionWrong s.now (cells_values result).cells
        × CheckedMeans s.now (check_scene s.now) }
{
    let answer = question::answer(s, Wanted::All)?;
    Ok(explored(answer.scene, answer.vectors))
}

// The nine cells of an answer: those of a refusal are empty.
pub fn cells(answer: Result<Explored, Refusal>) -> [[Dimension; 3]; 3]
    ensures { result ≡ (cells_values answer).cells }
{
    match answer {
        Ok(e) => table::matrix(e),
        Err(_) => table::none(),
    }
}
