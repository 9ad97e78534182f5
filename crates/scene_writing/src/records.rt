// The records of elements, by value: the kind byte, coordinates low byte first, d and ia.
ghost use Rattle.std.specs.Prelude.{◌≡◌, []};
ghost use Rattle.scene.specs.declared.Shape.TheVariants.{Points, Line, Region};
ghost use Rattle.scene_written.specs.Bytes.{coordinate_then, point_then, record_bytes};

use plane::{Halfsegment, Point};

pub fn coordinate(z: i32) -> [u8; 4]
    ensures { result ≡ coordinate_then z [] }
{
    z.to_le_bytes()
}

fn coordinates(p: Point) -> [u8; 8]
    ensures { result ≡ point_then p [] }
{
    let mut both = [0u8; 8];
    both[..4].copy_from_slice(&coordinate(p.x));
    both[4..].copy_from_slice(&coordinate(p.y));
    both
}

#[tactic(auto, unfolding(scene_written::specs::Bytes::record_bytes))]
pub fn point(p: Point) -> [u8; 9]
    ensures { result ≡ record_bytes Points p }
{
    let mut record = [80u8; 9];
    record[1..].copy_from_slice(&coordinates(p));
    record
}

#[tactic(auto, unfolding(scene_written::specs::Bytes::record_bytes))]
pub fn line_half(h: Halfsegment) -> [u8; 18]
    ensures { result ≡ record_bytes Line h }
{
    let mut record = [76u8; 18];
    record[1..9].copy_from_slice(&coordinates(h.segment.left));
    record[9..17].copy_from_slice(&coordinates(h.segment.right));
    record[17] = h.is_left as u8;
    record
}

#[tactic(auto, unfolding(scene_written::specs::Bytes::record_bytes))]
pub fn region_half(h: Halfsegment, ia: bool) -> [u8; 19]
    ensures { result ≡ record_bytes Region (record { half = h; ia = ia }) }
{
    let mut record = [82u8; 19];
    record[1..9].copy_from_slice(&coordinates(h.segment.left));
    record[9..17].copy_from_slice(&coordinates(h.segment.right));
    record[17] = h.is_left as u8;
    record[18] = ia as u8;
    record
}
