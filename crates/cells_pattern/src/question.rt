// The pattern question over a scene's bytes and a pattern's bytes.
ghost use Rattle.std.specs.Prelude.{◌≡◌};
ghost use Rattle.check_verdict.specs.SharedPoints.{CheckedMeans};
ghost use Rattle.cells_pattern.specs.Related.{check_relate, relate_of, relate_values, NoPatternWrong};

use crate::pattern;
use cells::table;
use flags_masks::Wanted;
use flags_vectors::question;
use scene::Refusal;

// What a scene and a pattern are answered: the scene is checked whole, and of its flags those are wanted that the pattern's cells are read off. The answer is
// not wrong in points; and what the verdict says in points. A pattern that all cells fit has nine characters of the six, so that 22 and 23 are looked for where none fits.
pub fn relate(s: &[u8], p: &[u8]) -> Result<bool, Refusal>
    ensures { (result ≡ relate_of s.now p.now)
        × NoPatternWrong s.now p.now (relate_values result).holds
        × CheckedMeans s.now (check_relate s.now p.now) }
{
    let answer = question::answer(s, Wanted::Cells(pattern::asked_cells(p)))?;
    let explored = cells::question::explored(answer.scene, answer.vectors);
    if pattern::fits_all(p, table::matrix(explored)) {
        Ok(true)
    } else {
        pattern::misfit(p)
    }
}
