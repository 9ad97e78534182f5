// What is written at the end of an answer line, which is a vector of any room.
ghost use Rattle.std.specs.Prelude.{◌≡◌, [], ◌∷◌, ◌++◌, map, ◌+◌, ◌<◌, ◌≤◌, length};
ghost use Rattle.plane_dimensions.specs.Dimensions.{sign};
ghost use Rattle.arrayvec.specs.ArrayVec.{array_vec_len};
ghost use Rattle.answer_line.specs.Line.{space, decimal, cell_bytes};

use arrayvec::ArrayVec;
use plane_dimensions::Dimension;

// The bytes fit: what is dropped is never an error.
pub fn append<const ROOM: usize>(line: &mut ArrayVec<u8, ROOM>, bytes: &[u8])
    requires { array_vec_len line.old + length bytes.now ≤ ROOM }
    ensures { line.new.items ≡ line.old.items ++ bytes.now }
{
    let _ = line.try_extend_from_slice(bytes);
}

#[tactic(auto, using(crate::proofs::Decimal::same_decimal))]
pub fn decimal<const ROOM: usize>(line: &mut ArrayVec<u8, ROOM>, n: u64)
    requires { array_vec_len line.old + length (decimal n) ≤ ROOM }
    ensures { line.new.items ≡ line.old.items ++ decimal n }
{
    append(line, itoa::Buffer::new().format(n).as_bytes());
}

// A space, then the number.
pub fn field<const ROOM: usize>(line: &mut ArrayVec<u8, ROOM>, n: u64)
    requires { array_vec_len line.old + 1 + length (decimal n) ≤ ROOM }
    ensures { line.new.items ≡ line.old.items ++ space ∷ decimal n }
{
    line.push(b' ');
    decimal(line, n);
}

fn signs(row: [Dimension; 3]) -> [u8; 3]
    ensures { result ≡ map sign row }
{
    row.map(u8::from)
}

// The nine cells, row by row.
pub fn cells<const ROOM: usize>(line: &mut ArrayVec<u8, ROOM>, cells: [[Dimension; 3]; 3])
    requires { array_vec_len line.old + 9 ≤ ROOM }
    ensures written { line.new.items ≡ line.old.items ++ cell_bytes cells }
    ensures nine { array_vec_len line.new ≡ array_vec_len line.old + 9 }
{
    append(line, cells.map(signs).as_flattened());
}
