// Well-known binary, field by field (document 02, Paper 9): what is there, in either byte order, and the first fault by its byte.
#![tactic(auto)]

ghost use Rattle.std.specs.Prelude.{◌≡◌, ◌+◌, ◌≤◌, ◌<◌, length};
ghost use Rattle.wkb_grammar.specs.Fields.{must, is_there, is_little, word_at, float_at, type_at, count_at, header_at, counted_at, is_same_at, is_open};
ghost use Rattle.wkb_grammar.specs.Grammar.{outcome, coordinate_at, point_at};

use wkb_coordinate::Coordinate;

// A fault with its first byte: 24; 25 with the number that was read; 26.
#[derive(Clone, Copy)]
pub enum Fault {
    Malformed(usize),
    NoCoordinate(usize, f64),
    Open(usize),
}

// 24 at a place, unless a test holds there.
pub fn must(holds: bool, at: usize) -> Result<(), Fault>
    ensures { result ≡ must holds at }
{
    if holds {
        Ok(())
    } else {
        Err(Fault::Malformed(at))
    }
}

// Is a field of n bytes there, and not cut?
pub fn is_there(s: &[u8], at: usize, n: usize) -> bool
    ensures { result ≡ is_there s.now at n }
{
    at <= s.len() && n <= s.len() - at
}

// Does the header at a place say that the low byte comes first?
pub fn is_little(s: &[u8], at: usize) -> bool
    requires { at < length s.now }
    ensures { result ≡ is_little s.now at }
{
    s[at] == 1
}

// Four bytes, in a byte order.
#[tactic(auto, unfolding(crate::specs::Fields::word_at))]
pub fn word(s: &[u8], little: bool, at: usize) -> u32
    requires { at + 4 ≤ length s.now }
    ensures { result ≡ word_at s.now little at }
{
    let bytes = [s[at], s[at + 1], s[at + 2], s[at + 3]];
    if little {
        u32::from_le_bytes(bytes)
    } else {
        u32::from_be_bytes(bytes)
    }
}

// Eight bytes, as a number; a NaN for each pattern of a NaN.
pub fn float(s: &[u8], little: bool, at: usize) -> f64
    requires { at + 8 ≤ length s.now }
    ensures { result ≡ float_at s.now little at }
{
    let first = word(s, little, at) as u64;
    let second = word(s, little, at + 4) as u64;
    std::num::f64_from_bits_with_nan(if little {
        first | second << 32
    } else {
        second | first << 32
    })
}

// The type that the header at a place has, and the count behind it, each in the header's own byte order.
pub fn kind(s: &[u8], at: usize) -> u32
    requires { at + 5 ≤ length s.now }
    ensures { result ≡ type_at s.now at }
{
    word(s, is_little(s, at), at + 1)
}

pub fn count(s: &[u8], at: usize) -> u32
    requires { at + 9 ≤ length s.now }
    ensures { result ≡ count_at s.now at }
{
    word(s, is_little(s, at), at + 5)
}

// Byte order and type.
#[tactic(auto, unfolding(crate::specs::Fields::header_at))]
pub fn header(s: &[u8], at: usize, low: u32, high: u32) -> Result<(), Fault>
    ensures { result ≡ header_at s.now at low high }
{
    must(is_there(s, at, 1) && s[at] <= 1, at)?;
    must(
        is_there(s, at + 1, 4) && (low..=high).contains(&kind(s, at)),
        at + 1,
    )
}

// Byte order, type and a count that is there.
#[tactic(auto, using(crate::proofs::Laws::header_there), unfolding(crate::specs::Fields::counted_at))]
pub fn counted(s: &[u8], at: usize, low: u32, high: u32) -> Result<(), Fault>
    ensures { result ≡ counted_at s.now at low high }
{
    header(s, at, low, high)?;
    must(is_there(s, at + 5, 4), at + 5)
}

fn coordinate(s: &[u8], little: bool, at: usize) -> Result<usize, Fault>
    ensures { result ≡ outcome (coordinate_at s.now little at) }
{
    must(is_there(s, at, 8), at)?;
    match Coordinate::from(float(s, little, at)) {
        Coordinate::Whole(_) => Ok(at + 8),
        Coordinate::Other(x) => Err(Fault::NoCoordinate(at, x)),
    }
}

pub fn point(s: &[u8], little: bool, at: usize) -> Result<usize, Fault>
    ensures { result ≡ outcome (point_at s.now little at) }
{
    let y = coordinate(s, little, at)?;
    coordinate(s, little, y)
}

// Two points compared as numbers: a NaN is equal to none, and -0 is 0.
fn is_same(s: &[u8], little: bool, a: usize, b: usize) -> bool
    requires { (a + 16 ≤ length s.now) × (b + 16 ≤ length s.now) }
    ensures { result ≡ is_same_at s.now little a b }
{
    float(s, little, a) == float(s, little, b) && float(s, little, a + 8) == float(s, little, b + 8)
}

// A ring of n points from a place: all are there, and the last is not the first.
#[tactic(auto, unfolding(crate::specs::Fields::is_open))]
pub fn is_open(s: &[u8], little: bool, n: u32, at: usize) -> bool
    requires { 4 ≤ n }
    ensures { result ≡ is_open s.now little n at }
{
    let size = n as usize * 16;
    is_there(s, at, size) && !is_same(s, little, at, at + (size - 16))
}
