// The sweep over the halfsegments of a scene, from left to right: it accepts exactly the scenes in order in which the conditions 11 to 15 find no fault.
// How many of the other object's segments pass under each segment, or under each point, is then noted, as a parity.
#![tactic(auto)]

ghost use Rattle.std.specs.Prelude.{◌≡◌, true, false, not, ◌&&◌, cond, ◌<◌, T, length};
ghost use Rattle.whole.specs.Decides.{Decides};
ghost use Rattle.scene.specs.Conditions.{has_segments};
ghost use Rattle.sweep_laws.specs.Evenly.{RegionsEndEvenly};
ghost use Rattle.sweep_laws.specs.Swept.{total, is_beginning, takes_first, InOrder, Passes};
ghost use Rattle.sweep_laws.specs.Event.{Taken, CanTake};
ghost use Rattle.sweep_laws.specs.Held.{Held};
ghost use Rattle.sweep_laws.specs.Noted.{SegmentsNoted, Noted};
ghost use Rattle.sweep_notes.specs.Lent.{OnceLaid};
ghost use Rattle.sweep_event.specs.Steps.{Steps};
ghost use Rattle.sweep.specs.Walk.{Walks};

use scene::{Layout, Scene};
use scene_keys::Cursor;
use scene_segments::ReadScene;
use sweep_notes::{Note, Notes};
use sweep_status::Status;
use sweep_status::owner::Event;
use sweep_status::place::Entries;

pub mod evenly;
pub mod points;

// As many segments as both objects may have, each of which is two halfsegments.
const ROOM: usize = 1024;

/// A scene where it was read, each of whose objects is in order: 10 finds no fault.
#[derive(Clone, Copy)]
pub struct OrderedScene<'a> {
    pub read: ReadScene<'a>,
    pub ghost in_order: { InOrder read.bytes.now read.scene },
}

// How many events an object has.
fn event_count(l: Layout) -> usize
    ensures { result ≡ cond (has_segments l.shape) l.count 0 }
{
    if l.shape.has_segments() { l.count } else { 0 }
}

// Is the next event F's? Its key and that of G's next tell, unless they are the same.
fn takes_first(read: ReadScene<'_>, f: &Cursor<'_>, g: &Cursor<'_>) -> bool
    requires { Walks read.bytes.now read.scene true f.now × Walks read.bytes.now read.scene false g.now }
    ensures { result ≡ takes_first read.entry.bytes.now read.entry.scene f.now.index g.now.index }
{
    if f.index == event_count(read.scene.f) {
        return false;
    }
    if g.index == event_count(read.scene.g) {
        return true;
    }
    if f.key != g.key {
        return f.key < g.key;
    }
    !plane_segments::comes_before(g.object.half(g.index), f.object.half(f.index))
}

// The element k of F, or of G, at a place for its point: its note, if it can be taken.
// The scene is lent, here and to note_points: they run for each halfsegment, and a copy of it each time showed in the time of a verdict.
fn take_event(
    read: &ReadScene<'_>,
    first: bool,
    k: usize,
    status: &mut Status<ROOM>,
    notes: &Notes,
) -> Option<Note>
    requires { (k < total read.now.bytes.now read.now.scene first) × Held read.now.bytes.now read.now.scene status.old }
    ensures { Steps (Taken read.now.bytes.now read.now.scene first k notes.now status.old status.new) ((is_beginning read.now.bytes.now read.now.scene first k ≡ true → length status.old < ROOM) × CanTake read.now.bytes.now read.now.scene first k status.old) result }
{
    let object = read.object(first);
    let event = Event {
        read: *read,
        first,
        at: object.place(k),
    };
    let h = object.half(k);
    let entries = Entries {
        bytes: read.bytes,
        offsets: status.entries(),
    };
    let place = entries.find(plane_segments::dominating_point(h), status.near());
    if h.is_left {
        sweep_event::begin(event, status, place)
    } else {
        sweep_event::end(event, status, place, notes)
    }
}

// All events, one after the other. No segment is active at the end.
fn run_events(ordered: OrderedScene<'_>, notes: &mut Notes) -> bool
    requires { RegionsEndEvenly ordered.read.bytes.now ordered.read.scene }
    ensures { Decides (Passes ordered.entry.read.bytes.now ordered.entry.read.scene) result × (T result → SegmentsNoted ordered.entry.read.bytes.now ordered.entry.read.scene notes.new) }
{
    let read = ordered.read;
    let all = event_count(read.scene.f) + event_count(read.scene.g);
    let mut status = Status::<ROOM>::new();
    let mut f = Cursor::first(read.object(true));
    let mut g = Cursor::first(read.object(false));
    for _ in 0..all {
        let first = takes_first(read, &f, &g);
        let k = if first { f.index } else { g.index };
        let Some(note) = take_event(&read, first, k, &mut status, notes) else {
            return false;
        };
        notes.write(first, k, note);
        if first {
            f.advance();
        } else {
            g.advance();
        }
    }
    status.is_empty()
}

// Does F have points, and G segments?
fn has_points(scene: Scene) -> bool
    ensures { result ≡ (not (has_segments scene.f.shape) && has_segments scene.g.shape) }
{
    !scene.f.shape.has_segments() && scene.g.shape.has_segments()
}

// Do 11 to 15 find no fault in a scene in order? If so, each element is noted, and in lent bytes too, once the notes are laid into them.
pub fn accepts(ordered: OrderedScene<'_>, notes: &mut Notes) -> bool
    ensures is { Decides (Passes ordered.entry.read.bytes.now ordered.entry.read.scene) result × (T result → Noted ordered.entry.read.bytes.now ordered.entry.read.scene notes.new) }
    ensures lent { OnceLaid notes.new (λ bytes. T result → Noted ordered.entry.read.bytes.now ordered.entry.read.scene bytes) }
{
    if !evenly::regions_end_evenly(ordered) {
        return false;
    }
    if has_points(ordered.read.scene) {
        points::run_points(ordered, notes)
    } else {
        run_events(ordered, notes)
    }
}
