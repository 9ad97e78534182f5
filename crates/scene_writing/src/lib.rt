// An object's bytes from its points or its segments, at the end of a vector of bytes of any room.
#![tactic(auto)]

ghost use Rattle.std.specs.Prelude.{◌≡◌, [], ◌++◌, ◌+◌, ◌*◌, ◌≤◌, length};
ghost use Rattle.arrayvec.specs.ArrayVec.{array_vec_len};
ghost use Rattle.scene.specs.declared.Shape.TheVariants.{Points, Line, Region};
ghost use Rattle.scene_written.specs.Bytes.{bytes_of};
ghost use Rattle.scene_writing.specs.Rows.{AreKeys, points_in, segments_in};
ghost use Rattle.scene_writing.specs.Settled.{settled_items};
ghost use Rattle.scene_writing.specs.Named.{IsSettled};

use arrayvec::ArrayVec;

mod order;
pub mod records;

pub use order::{Half, Row, settled};

// The bytes fit: what is dropped is never an error.
pub fn append<const ROOM: usize>(out: &mut ArrayVec<u8, ROOM>, bytes: &[u8])
    requires { array_vec_len out.old + length bytes.now ≤ ROOM }
    ensures { out.new.items ≡ out.old.items ++ bytes.now }
{
    let _ = out.try_extend_from_slice(bytes);
}

// A points object of the points that have these keys, as they stand in the row.
pub fn write_points<const ROOM: usize>(out: &mut ArrayVec<u8, ROOM>, row: &[u64])
    requires keys { AreKeys row.now }
    requires room { array_vec_len out.old + (9 * length row.now + 3) ≤ ROOM }
    ensures { out.new.items ≡ out.old.items ++ bytes_of Points (points_in row.now) }
{
    append(out, &[84, 1]);
    for k in row {
        append(out, &records::point(scene_keys::point(*k)));
    }
    out.push(69);
}

// A line of the segments in the row: both halves of each, in order.
pub fn write_line<const ROOM: usize>(out: &mut ArrayVec<u8, ROOM>, row: Row<'_>)
    requires { array_vec_len out.old + (36 * length row.ends.now + 3) ≤ ROOM }
    ensures { out.new.items ≡ out.old.items ++ bytes_of Line (settled_items Line (segments_in row.entry.ends.now) []) }
{
    append(out, &[84, 2]);
    for h in settled(row).as_slice() {
        append(out, &records::line_half(row.half(*h)));
    }
    out.push(69);
}

// A region of the segments in the row, each with its ia.
pub fn write_region<const ROOM: usize>(out: &mut ArrayVec<u8, ROOM>, row: Row<'_>, ia: &[bool])
    requires ia { length ia.now ≡ length row.ends.now }
    requires room { array_vec_len out.old + (38 * length row.ends.now + 3) ≤ ROOM }
    ensures { out.new.items ≡ out.old.items ++ bytes_of Region (settled_items Region (segments_in row.entry.ends.now) ia.now) }
{
    write_region_in(out, row, settled(row).as_slice(), ia);
}

// The same, where the order of the halves is known.
pub fn write_region_in<const ROOM: usize>(
    out: &mut ArrayVec<u8, ROOM>,
    row: Row<'_>,
    order: &[Half],
    ia: &[bool],
)
    requires order { IsSettled row.ends.now order.now }
    requires ia { length ia.now ≡ length row.ends.now }
    requires room { array_vec_len out.old + (38 * length row.ends.now + 3) ≤ ROOM }
    ensures { out.new.items ≡ out.old.items ++ bytes_of Region (settled_items Region (segments_in row.entry.ends.now) ia.now) }
{
    append(out, &[84, 3]);
    for h in order {
        append(
            out,
            &records::region_half(row.half(*h), ia[h.index as usize]),
        );
    }
    out.push(69);
}
