// The bytes of two objects that are split, and their way into a lent buffer.
ghost use Rattle.std.specs.Prelude.{◌≡◌, ◌++◌, ◌+◌, ◌*◌, ◌≤◌, cond, map, drop, leb, length};
ghost use Rattle.arrayvec.specs.ArrayVec.{array_vec_len};
ghost use Rattle.plane.specs.Plane.{Object};
ghost use Rattle.scene_keys.specs.Keyed.{ends_of};
ghost use Rattle.scene_written.specs.Bytes.{GoodSegment};
ghost use Rattle.scene_written.specs.Arranged.{object_bytes};
ghost use Rattle.whole.specs.Count.{◌∈◌};
ghost use Rattle.plane.specs.declared.Segment.{Segment};
ghost use Rattle.split_cuts.specs.Listed.{segments_of};
ghost use Rattle.split.specs.Split.{of_shape};
ghost use Rattle.split.specs.Cut.{ias_of, Ready, handed};

use crate::Splitted;
use crate::cut::CutPair;
use arrayvec::ArrayVec;
use scene::{Reason, Refusal, Shape};
use scene_keys::Ends;
use scene_segments::Pair;
use scene_writing::Row;
use split_cuts::Piece;
use split_cuts::pieces::MOST;

// Two regions of as many pieces as an object may have.
const ROOM: usize = 38918;

pub type Bytes = ArrayVec<u8, ROOM>;

// The ends of the pieces, as keys.
fn ends_of(pieces: &[Piece]) -> ArrayVec<Ends, MOST>
    requires { (length pieces.now ≤ 512) × ((t : Segment) → t ∈ segments_of pieces.now → GoodSegment t) }
    ensures { result.items ≡ map ends_of (segments_of pieces.now) }
{
    let mut row = ArrayVec::new();
    for p in pieces {
        row.push(Ends {
            left: scene_keys::key(p.segment.left),
            right: scene_keys::key(p.segment.right),
        });
    }
    row
}

// And their ia.
fn ias_of(pieces: &[Piece]) -> ArrayVec<bool, MOST>
    requires { length pieces.now ≤ 512 }
    ensures { result.items ≡ ias_of pieces.now }
{
    let mut row = ArrayVec::new();
    for p in pieces {
        row.push(p.ia);
    }
    row
}

// Appends an object of the pieces.
pub fn append(bytes: &mut Bytes, shape: Shape, pieces: &[Piece])
    requires { Ready shape pieces.now × (array_vec_len bytes.old + (38 * length pieces.now + 3) ≤ 38918) }
    ensures { (o : Object) → bytes.new.items ≡ bytes.old.items ++ object_bytes (of_shape shape o (segments_of pieces.now)) }
{
    let ends = ends_of(pieces);
    let row = Row {
        ends: ends.as_slice(),
    };
    match shape {
        Shape::Points => (),
        Shape::Line => scene_writing::write_line(bytes, row),
        Shape::Region => scene_writing::write_region(bytes, row, ias_of(pieces).as_slice()),
    }
}

// Both objects of a pair that is cut, one after the other.
pub fn both(pair: Pair<'_>, cut: &CutPair) -> Bytes
    requires { Ready pair.own.shape cut.now.own.pieces.items × Ready pair.other.shape cut.now.other.pieces.items }
    ensures { (o p : Object) → result.items ≡ object_bytes (of_shape pair.entry.own.shape o (segments_of cut.now.own.pieces.items))
        ++ object_bytes (of_shape pair.entry.other.shape p (segments_of cut.now.other.pieces.items)) }
{
    let mut bytes = Bytes::new();
    append(&mut bytes, pair.own.shape, cut.own.pieces.as_slice());
    append(&mut bytes, pair.other.shape, cut.other.pieces.as_slice());
    bytes
}

// Copies the bytes to the start of a lent buffer, and says how many: 21 where it is too short.
pub fn hand_over(
    bytes: &[u8],
    added_f: usize,
    added_g: usize,
    out: &mut [u8],
) -> Result<Splitted, Refusal>
    ensures { (result ≡ handed bytes.now added_f added_g (leb (length bytes.now) (length out.old)))
        × (out.new ≡ cond (leb (length bytes.now) (length out.old)) (bytes.now ++ drop (length bytes.now) out.old) out.old) }
{
    if out.len() < bytes.len() {
        return Reason::NoRoom.at(0);
    }
    rows::lay(bytes, out);
    Ok(Splitted {
        added_f,
        added_g,
        length: bytes.len(),
    })
}
