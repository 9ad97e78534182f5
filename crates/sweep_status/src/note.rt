// The note of an element by the offset of its record, as the entries of the status have it.
ghost use Rattle.std.specs.Prelude.{◌≡◌, List, ℕ, ◌+◌, ◌≤◌, get_or};
ghost use Rattle.scene.specs.Read.{place};
ghost use Rattle.sweep_laws.specs.Swept.{slot, object_of};
ghost use Rattle.sweep_laws.specs.Held.{Placed};
ghost use Rattle.sweep_notes.specs.Numbers.{note_number};

use scene::{Layout, Scene};
use sweep_notes::{Note, Notes};

// The index of the element whose record stands at an offset.
fn index_at(l: Layout, at: usize) -> usize
    requires { l.start + 2 ≤ at }
    ensures { (k : ℕ) → at ≡ place l k → result ≡ k }
{
    (at - l.start - 2) / l.shape.size()
}

// The note of that element.
pub fn note_at(scene: Scene, first: bool, notes: &Notes, at: usize) -> Note
    requires { (s : List ℕ) → Placed (object_of s scene first) at }
    ensures { (s : List ℕ) (k : ℕ) → at ≡ place (object_of s scene first) k → note_number result ≡ get_or notes.now (slot first k) 0 }
{
    notes.of(first, index_at(scene.object(first), at))
}
