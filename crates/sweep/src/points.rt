// The points of F where F has points and G segments: the sweep over G's halfsegments takes each before the first halfsegment that does not come
// before it, and notes it by the segments that are active there.
ghost use Rattle.std.specs.Prelude.{◌≡◌, false, ◌≤◌, T};
ghost use Rattle.whole.specs.Decides.{Decides};
ghost use Rattle.plane.specs.Plane.{in_range};
ghost use Rattle.scene.specs.declared.Shape.TheVariants.{Points};
ghost use Rattle.scene.specs.Conditions.{has_segments};
ghost use Rattle.sweep_laws.specs.Held.{Held};
ghost use Rattle.sweep_laws.specs.Located.{NearNote, is_point_next, PointsTaken};
ghost use Rattle.sweep_laws.specs.Evenly.{RegionsEndEvenly};
ghost use Rattle.sweep_laws.specs.Noted.{Noted};
ghost use Rattle.sweep_laws.specs.Swept.{total, Passes};
ghost use Rattle.sweep_notes.specs.Numbers.{note_number};
ghost use Rattle.sweep_notes.specs.Lent.{OnceLaid};

use crate::{OrderedScene, ROOM};
use plane::{Point, Turn};
use scene_segments::ReadScene;
use sweep_notes::{Note, Notes};
use sweep_status::Status;
use sweep_status::place::Entries;

// The note of a point by the entries, by halving. In order, those that pass under it come first, and those that pass over it last: one that passes through it
// tells it at once.
// Kept beside the search for a place, `Entries::find`: there those that pass through the point are to stand below the place. Here the search may end at the first, and
// of most points that lie on segments a look at the one below the place would ask again what the search has asked.
fn locate(entries: Entries<'_>, v: Point) -> Note
    requires { T (in_range v) }
    ensures { NearNote entries.entry.bytes.now entries.entry.offsets.now v (note_number result) }
{
    let mut low = 0;
    let mut high = entries.offsets.len();
    while low < high {
        let middle = low + (high - low) / 2;
        let u = entries.segment(middle);
        match plane::turn_from(u.left, u.right, v) {
            Turn::Left => low = middle + 1,
            Turn::Straight => return Note::On,
            Turn::Right => high = middle,
        }
    }
    Note::from(high % 2 == 1)
}

// Does F's point i come before G's halfsegment j?
fn is_point_next(read: ReadScene<'_>, i: usize, j: usize) -> bool
    requires { (read.scene.f.shape ≡ Points) × (i ≤ read.scene.f.count) × (j ≤ total read.bytes.now read.scene false) }
    ensures { result ≡ is_point_next read.entry.bytes.now read.entry.scene i j }
{
    if i == read.scene.f.count {
        return false;
    }
    if j == crate::event_count(read.scene.g) {
        return true;
    }
    let h = read.object(false).half(j);
    let v = read.object(true).point(i);
    v <= plane_segments::dominating_point(h)
}

// The points from i on that come before G's halfsegment j: the index of the first that does not.
fn note_points(
    read: &ReadScene<'_>,
    i: usize,
    j: usize,
    status: &Status<ROOM>,
    notes: &mut Notes,
) -> usize
    requires { (read.now.scene.f.shape ≡ Points) × (i ≤ read.now.scene.f.count) × (j ≤ total read.now.bytes.now read.now.scene false) × Held read.now.bytes.now read.now.scene status.now }
    ensures { (result ≤ read.now.scene.f.count) × (is_point_next read.now.bytes.now read.now.scene result j ≡ false) × PointsTaken read.now.bytes.now read.now.scene j status.now i result notes.old notes.new }
{
    let entries = Entries {
        bytes: read.bytes,
        offsets: status.entries(),
    };
    for k in i..read.scene.f.count {
        if !is_point_next(*read, k, j) {
            return k;
        }
        notes.write(true, k, locate(entries, read.object(true).point(k)));
    }
    read.scene.f.count
}

// All points of F and all halfsegments of G, one after the other. No segment is active at the end.
// Kept beside run_events: there the next event is of either object, told by keys, and no points stand between.
pub fn run_points(ordered: OrderedScene<'_>, notes: &mut Notes) -> bool
    requires { (ordered.read.scene.f.shape ≡ Points) × T (has_segments ordered.read.scene.g.shape) × RegionsEndEvenly ordered.read.bytes.now ordered.read.scene }
    ensures is { Decides (Passes ordered.entry.read.bytes.now ordered.entry.read.scene) result × (T result → Noted ordered.entry.read.bytes.now ordered.entry.read.scene notes.new) }
    ensures lent { OnceLaid notes.new (λ bytes. T result → Noted ordered.entry.read.bytes.now ordered.entry.read.scene bytes) }
{
    let read = ordered.read;
    let all = crate::event_count(read.scene.g);
    let mut status = Status::<ROOM>::new();
    let mut i: usize = 0;
    for j in 0..all {
        i = note_points(&read, i, j, &status, notes);
        let Some(note) = crate::take_event(&read, false, j, &mut status, notes) else {
            return false;
        };
        notes.write(false, j, note);
    }
    note_points(&read, i, all, &status, notes);
    status.is_empty()
}
