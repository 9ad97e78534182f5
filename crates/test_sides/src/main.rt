// Reads quadruples of points from standard input, eight coordinates each as a scene has them, and writes for each two letters: how the path through the first three turns, and how the path
// through the first two turns to the midpoint of the other two, which is asked with doubled coordinates. L left, S straight, R right; and ? twice where a point is out of range.
#![tactic(auto)]

ghost use Rattle.std.specs.Prelude.{T};
ghost use Rattle.plane.specs.Plane.{in_range};

use plane::{Point, Segment, Turn};
use scene::bytes;
use std::io;

// The bytes of a quadruple of points.
const SIZE: usize = 32;

// Quadruples in a block, and the most blocks that are read: four million quadruples.
const MANY: usize = 1024;

const BLOCKS: usize = 4096;

fn letter(turn: Turn) -> u8 {
    match turn {
        Turn::Left => b'L',
        Turn::Straight => b'S',
        Turn::Right => b'R',
    }
}

// The turn at b on the way from a to c, and to the midpoint of c and d.
fn turns(a: Point, b: Point, c: Point, d: Point) -> [Turn; 2]
    requires { T (in_range a) × T (in_range b) × T (in_range c) × T (in_range d) }
{
    let m = plane_segments::doubled_midpoint(Segment { left: c, right: d });
    let to_middle = plane::turn_from(plane_segments::doubled(a), plane_segments::doubled(b), m);
    [plane::turn_from(a, b, c), to_middle]
}

// What is written of a quadruple.
pub type Letters = [u8; 2];

fn letters(quadruple: &[u8; SIZE]) -> Letters {
    let a = bytes::point_from(quadruple, 0);
    let b = bytes::point_from(quadruple, 8);
    let c = bytes::point_from(quadruple, 16);
    let d = bytes::point_from(quadruple, 24);
    if plane::is_in_range(a)
        && plane::is_in_range(b)
        && plane::is_in_range(c)
        && plane::is_in_range(d)
    {
        let [plain, halfway] = turns(a, b, c, d);
        [letter(plain), letter(halfway)]
    } else {
        *b"??"
    }
}

// Writes the letters of a block's quadruples, as far as there is room.
fn write_letters(block: &[u8], out: &mut [u8]) {
    let (quadruples, _) = block.as_chunks::<SIZE>();
    let (pairs, _) = out.as_chunks_mut::<2>();
    for (quadruple, pair) in quadruples.iter().zip(pairs.iter_mut()) {
        *pair = letters(quadruple);
    }
}

// One block read and answered. Was it full?
fn answer_block(rt: &(impl Input + Print)) -> io::Result<bool> {
    let mut block = [0u8; SIZE * MANY];
    let mut out = [0u8; 2 * MANY];
    let (length, outcome) = streams::read_full(&mut rt.reader(), &mut block);
    outcome?;
    write_letters(&block[..length], &mut out);
    rt.write_all(&out[..length / SIZE * 2])?;
    Ok(length == block.len())
}

fn main(rt: HostRuntime) -> io::Result<()> {
    for _ in 0..BLOCKS {
        if !answer_block(&rt)? {
            break;
        }
    }
    Ok(())
}
