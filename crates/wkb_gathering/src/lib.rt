// The second pass over the bytes of a well-known binary file that were accepted (document 02, Paper 9): each different point, or each different segment, goes
// into an ordered row of keys. A function that reads something answers the place after it, or an error where the row is full.
#![tactic(auto)]

ghost use Rattle.std.specs.Prelude.{◌≡◌, ◌+◌, ◌<◌, ◌≤◌, ◌≢◌, T, nat_abs, MatchResult, length, map};
ghost use Rattle.std.specs.Option.{option_to_list};
ghost use Rattle.std.specs.Ordering.{nat_cmp};
ghost use Rattle.plane.specs.Plane.{limit};
ghost use Rattle.scene_keys.specs.Keyed.{key, ends_of};
ghost use Rattle.wkb_grammar.specs.Fields.{type_at};
ghost use Rattle.wkb_grammar.specs.Grammar.{is_taken, got, many, coordinate_at, point_at, ring_at, part_at, file};
ghost use Rattle.wkb_rows.specs.Rows.{points_of, segments_of, ends_cmp};
ghost use Rattle.wkb_gathering.specs.Keys.{linked, row_ends, part_ends};
ghost use Rattle.wkb_gathering.specs.Gathers.{KeyRead, parts_of, put_all, Puts};

use arrayvec::CapacityError;
use plane::Point;
use scene_keys::Ends;
use std::cmp::Ordering;
use wkb_coordinate::Coordinate;
use wkb_rows::OrderedRow;

// ---- points

fn coordinate(s: &[u8], little: bool, at: usize) -> i32
    requires { T (is_taken (coordinate_at s.now little at)) }
    ensures { (coordinate_at s.now little at ≡ got result (at + 8)) × (nat_abs result ≤ limit) }
{
    match Coordinate::from(wkb_grammar::float(s, little, at)) {
        Coordinate::Whole(z) => z,
        Coordinate::Other(_) => unreachable!(),
    }
}

fn key(s: &[u8], little: bool, at: usize) -> u64
    requires { T (is_taken (point_at s.now little at)) }
    ensures { KeyRead s.now little at result }
{
    scene_keys::key(Point {
        x: coordinate(s, little, at),
        y: coordinate(s, little, at + 8),
    })
}

// The different points of a MultiPoint, as keys.
pub fn points<const ROOM: usize>(s: &[u8]) -> Result<OrderedRow<u64, ROOM>, CapacityError<u64>>
    requires { T (is_taken (file s.now)) × (type_at s.now 0 ≡ 4) }
    ensures { MatchResult result (λ row. row ≡ map key (points_of (parts_of s.now))) (λ _. ROOM < length (points_of (parts_of s.now))) }
{
    let n = wkb_grammar::count(s, 0);
    let mut row = OrderedRow::new();
    let mut at = 9;
    for _ in 0..n {
        row.put(key(s, wkb_grammar::is_little(s, at), at + 5))?;
        at += 21;
    }
    Ok(row)
}

// ---- segments

// The segment from the point before to the next one, by their keys. There is none at the first point of a row, and none between equal neighbours.
fn link(before: Option<u64>, next: u64) -> Option<Ends>
    ensures { option_to_list result ≡ linked before next }
{
    let before = before?;
    match before.cmp(&next) {
        Ordering::Less => Some(Ends {
            left: before,
            right: next,
        }),
        Ordering::Equal => None,
        Ordering::Greater => Some(Ends {
            left: next,
            right: before,
        }),
    }
}

// The segments between neighbours in a row of n points.
fn row_into<const ROOM: usize>(
    s: &[u8],
    little: bool,
    n: u32,
    from: usize,
    row: &mut OrderedRow<Ends, ROOM>,
) -> Result<usize, CapacityError<Ends>>
    requires { T (is_taken (many (point_at s.now little) n from)) }
    ensures { Puts ROOM (put_all ends_cmp row_ends (many (point_at s.now little) n from) row.old) result row.new }
{
    let mut before = None;
    let mut at = from;
    for _ in 0..n {
        let next = key(s, little, at);
        if let Some(segment) = link(before, next) {
            row.put(segment)?;
        }
        before = Some(next);
        at += 16;
    }
    Ok(at)
}

fn ring_into<const ROOM: usize>(
    s: &[u8],
    little: bool,
    at: usize,
    row: &mut OrderedRow<Ends, ROOM>,
) -> Result<usize, CapacityError<Ends>>
    requires { T (is_taken (ring_at s.now little at)) }
    ensures { Puts ROOM (put_all ends_cmp row_ends (ring_at s.now little at) row.old) result row.new }
{
    row_into(s, little, wkb_grammar::word(s, little, at), at + 4, row)
}

fn rings_into<const ROOM: usize>(
    s: &[u8],
    little: bool,
    n: u32,
    from: usize,
    row: &mut OrderedRow<Ends, ROOM>,
) -> Result<usize, CapacityError<Ends>>
    requires { T (is_taken (many (ring_at s.now little) n from)) }
    ensures { Puts ROOM (put_all ends_cmp part_ends (many (ring_at s.now little) n from) row.old) result row.new }
{
    let mut at = from;
    for _ in 0..n {
        at = ring_into(s, little, at, row)?;
    }
    Ok(at)
}

// A part of a MultiLineString, or a polygon.
fn part_into<const ROOM: usize>(
    s: &[u8],
    kind: u32,
    at: usize,
    row: &mut OrderedRow<Ends, ROOM>,
) -> Result<usize, CapacityError<Ends>>
    requires { T (is_taken (part_at s.now kind at)) × (kind ≢ 4) }
    ensures { Puts ROOM (put_all ends_cmp part_ends (part_at s.now kind at) row.old) result row.new }
{
    let little = wkb_grammar::is_little(s, at);
    let n = wkb_grammar::count(s, at);
    if kind == 5 {
        row_into(s, little, n, at + 9, row)
    } else {
        rings_into(s, little, n, at + 9, row)
    }
}

// The different segments of a MultiLineString or a MultiPolygon, by the keys of their ends.
pub fn segments<const ROOM: usize>(s: &[u8]) -> Result<OrderedRow<Ends, ROOM>, CapacityError<Ends>>
    requires { T (is_taken (file s.now)) × (type_at s.now 0 ≢ 4) }
    ensures { MatchResult result (λ row. row ≡ map ends_of (segments_of (parts_of s.now))) (λ _. ROOM < length (segments_of (parts_of s.now))) }
{
    let kind = wkb_grammar::kind(s, 0);
    let n = wkb_grammar::count(s, 0);
    let mut row = OrderedRow::new();
    let mut at = 9;
    for _ in 0..n {
        at = part_into(s, kind, at, &mut row)?;
    }
    Ok(row)
}
