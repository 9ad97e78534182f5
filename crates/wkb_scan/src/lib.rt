// One scan over the bytes of a well-known binary file: the first fault by its byte, or the place after the last field (document 02, Paper 9).
#![tactic(auto)]

ghost use Rattle.std.specs.Prelude.{Result, ℕ, ◌≡◌};
ghost use Rattle.wkb_grammar.specs.declared.Fault.{Fault};
ghost use Rattle.wkb_grammar.specs.Grammar.{outcome, many, point_at, ring_at, point_part, line_part, polygon_part, part_at, file};
ghost use Rattle.wkb_scan.specs.InTurn.{Reads, in_turn};

use wkb_grammar::Fault;

// n items from a place on, one after the other.
fn many<F: Fn(usize) -> Result<usize, Fault>>(item: F, n: u32, from: usize) -> Result<usize, Fault>
    requires { F.IsAlwaysCallable item }
    ensures { (read : ℕ → Result ℕ Fault) → Reads (F.post item) read → result ≡ in_turn read n from }
{
    let mut at = from;
    for _ in 0..n {
        at = item(at)?;
    }
    Ok(at)
}

fn points(s: &[u8], little: bool, n: u32, from: usize) -> Result<usize, Fault>
    ensures { result ≡ outcome (many (point_at s.now little) n from) }
{
    many(|at| wkb_grammar::point(s, little, at), n, from)
}

// A count of four or more, the last point against the first, and then the points.
#[tactic(auto, unfolding(wkb_grammar::specs::Grammar::ring_at))]
fn ring(s: &[u8], little: bool, at: usize) -> Result<usize, Fault>
    ensures { result ≡ outcome (ring_at s.now little at) }
{
    wkb_grammar::must(
        wkb_grammar::is_there(s, at, 4) && 4 <= wkb_grammar::word(s, little, at),
        at,
    )?;
    let n = wkb_grammar::word(s, little, at);
    if wkb_grammar::is_open(s, little, n, at + 4) {
        return Err(Fault::Open(at));
    }
    points(s, little, n, at + 4)
}

fn rings(s: &[u8], little: bool, n: u32, from: usize) -> Result<usize, Fault>
    ensures { result ≡ outcome (many (ring_at s.now little) n from) }
{
    many(|at| ring(s, little, at), n, from)
}

#[tactic(auto, using(wkb_grammar::proofs::Laws::header_there))]
fn point_part(s: &[u8], at: usize) -> Result<usize, Fault>
    ensures { result ≡ outcome (point_part s.now at) }
{
    wkb_grammar::header(s, at, 1, 1)?;
    wkb_grammar::point(s, wkb_grammar::is_little(s, at), at + 5)
}

#[tactic(auto, using(wkb_grammar::proofs::Laws::counted_there))]
fn line_part(s: &[u8], at: usize) -> Result<usize, Fault>
    ensures { result ≡ outcome (line_part s.now at) }
{
    wkb_grammar::counted(s, at, 2, 2)?;
    let n = wkb_grammar::count(s, at);
    wkb_grammar::must(n != 1, at + 5)?;
    points(s, wkb_grammar::is_little(s, at), n, at + 9)
}

#[tactic(auto, using(wkb_grammar::proofs::Laws::counted_there))]
fn polygon_part(s: &[u8], at: usize) -> Result<usize, Fault>
    ensures { result ≡ outcome (polygon_part s.now at) }
{
    wkb_grammar::counted(s, at, 3, 3)?;
    rings(
        s,
        wkb_grammar::is_little(s, at),
        wkb_grammar::count(s, at),
        at + 9,
    )
}

// A part, by the file's type.
#[tactic(auto, unfolding(wkb_grammar::specs::Grammar::part_at))]
fn part(s: &[u8], kind: u32, at: usize) -> Result<usize, Fault>
    ensures { result ≡ outcome (part_at s.now kind at) }
{
    match kind {
        4 => point_part(s, at),
        5 => line_part(s, at),
        _ => polygon_part(s, at),
    }
}

fn parts(s: &[u8], kind: u32, n: u32, from: usize) -> Result<usize, Fault>
    ensures { result ≡ outcome (many (part_at s.now kind) n from) }
{
    many(|at| part(s, kind, at), n, from)
}

// The first fault of the whole file, or its end.
#[tactic(auto, using(wkb_grammar::proofs::Laws::counted_there), unfolding(wkb_grammar::specs::Grammar::file))]
pub fn scan(s: &[u8]) -> Result<usize, Fault>
    ensures { result ≡ outcome (file s.now) }
{
    wkb_grammar::counted(s, 0, 4, 6)?;
    let end = parts(s, wkb_grammar::kind(s, 0), wkb_grammar::count(s, 0), 9)?;
    wkb_grammar::must(s.len() <= end, end)?;
    Ok(end)
}
