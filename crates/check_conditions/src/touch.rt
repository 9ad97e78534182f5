// The conditions 12 and 15 as a test of one element: a segment that shares with one of another object's, or of its own, a point that is not an end of
// both.
ghost use Rattle.std.specs.Prelude.{◌≡◌, ◌<◌, ◌≤◌};
ghost use Rattle.check_conditions.specs.Faults.{touches_any};

use scene_segments::Pair;

// Only the other's elements from k on are asked: of an object against itself, those after i, as touching goes both ways.
pub fn is_touching(pair: Pair<'_>, k: usize, i: usize) -> bool
    requires { (k ≤ pair.other.count) × (i < pair.own.count) }
    ensures { result ≡ touches_any pair.entry.bytes.now pair.entry.own pair.entry.other k i }
{
    if !pair.own.shape.has_segments() {
        return false;
    }
    let h = pair.own().half(i);
    h.is_left && pair.other().touches_from(h.segment, k)
}
