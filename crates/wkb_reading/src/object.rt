// The object of a file that was accepted, as its bytes, which 01's checks accept.
ghost use Rattle.std.specs.Prelude.{T, Ok, Err, ◌≡◌, ◌≢◌, [], MatchResult};
ghost use Rattle.std.specs.Result.{result_map_both};
ghost use Rattle.plane.specs.Plane.{points, line, region};
ghost use Rattle.scene.specs.Read.{read_alone};
ghost use Rattle.scene.specs.Conditions.{check_object};
ghost use Rattle.scene.proofs.Taken.{layout};
ghost use Rattle.wkb_grammar.specs.Fields.{type_at};
ghost use Rattle.wkb_grammar.specs.Grammar.{is_taken, file};
ghost use Rattle.wkb_rows.specs.Rows.{points_of, segments_of};
ghost use Rattle.wkb_gathering.specs.Gathers.{parts_of};
ghost use Rattle.wkb_reading.specs.Reading.{object_of, Makes};

use crate::ReadFault;
use arrayvec::ArrayVec;
use scene::{Layout, Refusal, Shape};
use scene_writing::Row;

// No object is longer than 19,459 bytes: a region of 512 segments, as 1,024 records. The empty object beside which it is checked has room behind it.
pub const ROOM: usize = 19_462;

// The bytes of an object.
pub type ObjectBytes = ArrayVec<u8, ROOM>;

// 01's checks of an object of so many elements, which were written to these bytes.
fn check(bytes: &mut ObjectBytes, shape: Shape, count: usize) -> Result<(), Refusal>
    requires { read_alone bytes.old.items ≡ Ok (layout shape 0 count) }
    ensures checked { MatchResult result (λ _. check_object bytes.old.items ≡ Ok (layout shape 0 count)) (λ r. check_object bytes.old.items ≡ Err r) }
    ensures same { bytes.new.items ≡ bytes.old.items }
{
    let layout = Layout {
        shape,
        start: 0,
        count,
    };
    check_alone::verdict(bytes, layout)
}

// A MultiPoint, whose points are gathered by their keys.
fn points(wkb: &[u8], bytes: &mut ObjectBytes) -> Result<(), ReadFault>
    requires taken { T (is_taken (file wkb.now)) × (type_at wkb.now 0 ≡ 4) }
    requires empty { bytes.old.items ≡ [] }
    ensures { Makes (points (points_of (parts_of wkb.now))) (result_map_both (λ _. bytes.new.items) (λ e. e) result) }
{
    let row = wkb_gathering::points::<1024>(wkb)?;
    let keys = row.keys();
    scene_writing::write_points(bytes, keys);
    check(bytes, Shape::Points, keys.len())?;
    Ok(())
}

// A MultiLineString.
fn line(wkb: &[u8], bytes: &mut ObjectBytes) -> Result<(), ReadFault>
    requires taken { T (is_taken (file wkb.now)) × (type_at wkb.now 0 ≢ 4) }
    requires empty { bytes.old.items ≡ [] }
    ensures { Makes (line (segments_of (parts_of wkb.now))) (result_map_both (λ _. bytes.new.items) (λ e. e) result) }
{
    let row = wkb_gathering::segments::<512>(wkb)?;
    let ends = row.keys();
    scene_writing::write_line(bytes, Row { ends });
    check(bytes, Shape::Line, 2 * ends.len())?;
    Ok(())
}

// A MultiPolygon. The ia of a sound region are found at its points; so it is written with those, and where it is sound they are right.
// Kept beside the ia by counting: where the region is not sound, it is refused under the first of the conditions, and that must not be the one on ia.
fn region(wkb: &[u8], bytes: &mut ObjectBytes) -> Result<(), ReadFault>
    requires taken { T (is_taken (file wkb.now)) × (type_at wkb.now 0 ≢ 4) }
    requires empty { bytes.old.items ≡ [] }
    ensures { Makes (region (segments_of (parts_of wkb.now))) (result_map_both (λ _. bytes.new.items) (λ e. e) result) }
{
    let row = wkb_gathering::segments::<512>(wkb)?;
    let segments = Row { ends: row.keys() };
    let n = segments.ends.len();
    let order = scene_writing::settled(segments);
    let guessed = wkb_interiors::guess::guess(segments, order.as_slice());
    scene_writing::write_region_in(bytes, segments, order.as_slice(), &guessed[..n]);
    let layout = Layout {
        shape: Shape::Region,
        start: 0,
        count: 2 * n,
    };
    if check_alone::is_sound(bytes, layout) {
        return Ok(());
    }
    let ia = wkb_interiors::interiors(segments);
    bytes.clear();
    scene_writing::write_region_in(bytes, segments, order.as_slice(), ia.as_slice());
    check(bytes, Shape::Region, 2 * n)?;
    Ok(())
}

// The bytes, into an empty vector that is handed in since a copy of it would take long; or "20".
pub fn of_file(wkb: &[u8], bytes: &mut ObjectBytes) -> Result<(), ReadFault>
    requires taken { T (is_taken (file wkb.now)) }
    requires empty { bytes.old.items ≡ [] }
    ensures { Makes (object_of (type_at wkb.now 0) (parts_of wkb.now)) (result_map_both (λ _. bytes.new.items) (λ e. e) result) }
{
    match wkb_grammar::kind(wkb, 0) {
        4 => points(wkb, bytes),
        5 => line(wkb, bytes),
        _ => region(wkb, bytes),
    }
}
