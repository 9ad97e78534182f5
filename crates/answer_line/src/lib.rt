// The one line that answers a scene, written into a lent buffer.
#![tactic(auto)]

ghost use Rattle.std.specs.Prelude.{◌≡◌, ◌≤◌, length};
ghost use Rattle.scene.specs.Read.{shape_number, number_of};
ghost use Rattle.cells.specs.Explored.{cells_values, matrix_from};
ghost use Rattle.answer_line.specs.Line.{ok_line, no_line, line_of, line_of_scene, Numbered, Lent};

use arrayvec::ArrayVec;
use cells::{Explored, question, table};
use scene::Refusal;

pub mod line;

// No line is longer than this: a buffer of this length has room for any.
pub const LINE_LIMIT: usize = 33;

// The bytes written so far.
type Line = ArrayVec<u8, LINE_LIMIT>;

#[tactic(auto, unfolding(crate::specs::Line::ok_line), using(crate::proofs::Decimal::lengths, std::proofs::lemmas::Grind::common_steps))]
fn ok_line(e: Explored) -> Line
    ensures { result.items ≡ ok_line (shape_number e.f) (shape_number e.g) e.v e.w (matrix_from e) }
{
    let mut line = Line::new();
    line::append(&mut line, b"ok");
    line::field(&mut line, u8::from(e.f) as u64);
    line::field(&mut line, u8::from(e.g) as u64);
    line::field(&mut line, e.v as u64);
    line::field(&mut line, e.w as u64);
    line.push(b' ');
    line::cells(&mut line, table::matrix(e));
    line.push(b'\n');
    line
}

#[tactic(auto, unfolding(crate::specs::Line::no_line), using(crate::proofs::Decimal::lengths, std::proofs::lemmas::Grind::common_steps))]
fn no_line(r: Refusal) -> Line
    ensures { result.items ≡ no_line (number_of r.reason) r.place }
{
    let mut line = Line::new();
    line::append(&mut line, b"no");
    line::field(&mut line, u8::from(r.reason) as u64);
    line::field(&mut line, r.place as u64);
    line.push(b'\n');
    line
}

#[tactic(auto, unfolding(crate::specs::Line::line_of))]
fn line_of(answer: Result<Explored, Refusal>) -> Line
    requires { Numbered answer }
    ensures { result.items ≡ line_of (cells_values answer) }
{
    match answer {
        Ok(e) => ok_line(e),
        Err(r) => no_line(r),
    }
}

// Writes the line of a scene's bytes and answers its length; or, if there is no room for it, writes nothing, and answers 0, the length of that.
// Kept as a number, where an Option would say none: it is the length of what then stands written, and no line is empty.
#[tactic(auto, unfolding(crate::specs::Line::line_of_scene), using(crate::proofs::Numbered::numbered))]
pub fn write_line(s: &[u8], out: &mut [u8]) -> usize
    ensures lent { Lent (line_of_scene s.now) out.old result out.new }
    ensures s_len_bound { length (line_of_scene s.now) ≤ LINE_LIMIT }
{
    let answer = line_of(question::explore(s));
    let line = answer.as_slice();
    if out.len() < line.len() {
        return 0;
    }
    out[..line.len()].copy_from_slice(line);
    line.len()
}
