// One event of the sweep: a segment that begins goes into the status between those under its left end and those over it; one that ends goes out.
// Where a neighbour does not let it in, where it is not found, or where an ia is wrong, the sweep stops, and then a condition finds a fault.
#![tactic(auto)]

ghost use Rattle.std.specs.Prelude.{◌≡◌, List, ℕ, ◌+◌, ◌<◌, ◌≤◌, ltb, length, IfSome, IfNone};
ghost use Rattle.std.specs.Bool.{beq};
ghost use Rattle.whole.specs.Count.{bit, odd, count};
ghost use Rattle.whole.specs.Decides.{Decides};
ghost use Rattle.scene.specs.Read.{segment_at, given_second};
ghost use Rattle.sweep_laws.specs.Swept.{strand_of, strand_at, Entry};
ghost use Rattle.sweep_laws.specs.Event.{Place, odd_of, RightIa, FitsAt, Began, OwnAt, EndsAt, Ended};
ghost use Rattle.sweep_laws.specs.Held.{Held};
ghost use Rattle.sweep_event.specs.Steps.{Steps};
ghost use Rattle.sweep_notes.specs.Numbers.{note_number};

use scene::{Scene, bytes};
use sweep_notes::{Note, Notes};
use sweep_status::owner::Event;
use sweep_status::place::Entries;
use sweep_status::{Status, note, owner};

// ---- a segment begins

// Do an odd number of entries stand before an offset?
// Kept as a loop: the compiler tests 16 of its entries at once, and those of `filter(..).count() % 2` one by one. With that, the check of a scene with 800
// active segments was measured at two and a half times the time.
fn has_odd_before(start: u16, entries: &[u16]) -> bool
    ensures { result ≡ odd (count (λ e. ltb e start) entries.now) }
{
    let mut odd = false;
    for e in entries {
        odd = odd != (*e < start);
    }
    odd
}

// Do an odd number of them stand before it, or not before it?
fn has_odd_beside(start: u16, before: bool, entries: &[u16]) -> bool
    ensures { result ≡ odd (count (λ e. beq before (ltb e start)) entries.now) }
{
    let odd = has_odd_before(start, entries);
    if before {
        odd
    } else {
        odd != (entries.len() % 2 == 1)
    }
}

// Are an odd number of the entries of F, or not of F?
fn has_odd_of(scene: Scene, first: bool, entries: &[u16]) -> bool
    requires { (given_second scene).start < 65536 }
    ensures { (s : List ℕ) → result ≡ odd_of s scene first entries.now }
{
    has_odd_beside(
        scene.given_second().start as u16,
        first != scene.is_turned(),
        entries,
    )
}

// A region's interior is above a segment where an even number of its own pass under it.
fn has_right_ia(event: Event<'_>, own: bool) -> bool
    ensures { Decides (RightIa event.entry.read.bytes.now event.entry.read.scene event.entry.first event.entry.at own) result }
{
    !event.read.scene.object(event.first).shape.is_region()
        || own != bytes::ia(event.read.bytes, event.at)
}

// The note of a segment over k entries, of which an odd number are its own object's, or not: odd where an odd number are the other's.
fn other_note(k: usize, own: bool) -> Note
    ensures { (a b : ℕ) → a + b ≡ k → own ≡ odd a → note_number result ≡ bit (odd b) }
{
    Note::from(own != (k % 2 == 1))
}

// A left halfsegment, and a place for its left end. It begins where there is room, and it fits there: then its note is given.
pub fn begin<const ROOM: usize>(
    event: Event<'_>,
    status: &mut Status<ROOM>,
    k: usize,
) -> Option<Note>
    requires { Held event.read.bytes.now event.read.scene status.old × Place event.read.bytes.now status.old (segment_at event.read.bytes.now event.at).left k }
    ensures { Steps (Began event.entry.read.bytes.now event.entry.read.scene event.entry.first event.entry.at status.old status.new) ((length status.old < ROOM) × FitsAt event.entry.read.bytes.now event.entry.read.scene event.entry.first event.entry.at status.old k) result }
{
    if status.is_full() {
        return None;
    }
    let entries = Entries {
        bytes: event.read.bytes,
        offsets: status.entries(),
    };
    if !entries.fits_over(event.read.scene, event.first, event.at, k)
        || !entries.fits_under(event.at, k)
    {
        return None;
    }
    let own = has_odd_of(event.read.scene, event.first, &entries.offsets[..k]);
    if !has_right_ia(event, own) {
        return None;
    }
    status.insert(k, event.at as u16);
    Some(other_note(k, own))
}

// ---- a segment ends

// Is the entry e the strand of the event: the same segment of the same object, with its ia?
// Kept as three tests: as `==` of two strands, each a struct that is read whole, the checks took up to 2.5 % more instructions.
fn is_own(event: Event<'_>, e: usize) -> bool
    requires { Entry event.read.bytes.now event.read.scene e }
    ensures { Decides (strand_at event.entry.read.bytes.now event.entry.read.scene e ≡ strand_of event.entry.read.bytes.now event.entry.read.scene event.entry.first event.entry.at) result }
{
    if event.first != owner::is_first(event.read.scene, e) {
        return false;
    }
    if bytes::segment(event.read.bytes, e) != bytes::segment(event.read.bytes, event.at) {
        return false;
    }
    !event.read.scene.object(event.first).shape.is_region()
        || bytes::ia(event.read.bytes, e) == bytes::ia(event.read.bytes, event.at)
}

// The place of the entry that a right halfsegment ends: just below the place top, or below entries of the same segment.
fn own_below(event: Event<'_>, entries: &[u16], top: usize) -> Option<usize>
    requires { Held event.read.bytes.now event.read.scene entries.now × (top ≤ length entries.now) }
    ensures found { IfSome result (OwnAt event.entry.read.bytes.now event.entry.read.scene event.entry.first event.entry.at entries.now top) }
    ensures none { IfNone result ((k : ℕ) → OwnAt event.entry.read.bytes.now event.entry.read.scene event.entry.first event.entry.at entries.now top k → ⊥) }
{
    let t = bytes::segment(event.read.bytes, event.at);
    for k in (0..top).rev() {
        let e = entries[k] as usize;
        if is_own(event, e) {
            return Some(k);
        }
        if bytes::segment(event.read.bytes, e) != t {
            return None;
        }
    }
    None
}

// A right halfsegment, and a place for its right end. It ends where its entry is found and the neighbours of that can meet: then its note is given, that
// of the left one.
pub fn end<const ROOM: usize>(
    event: Event<'_>,
    status: &mut Status<ROOM>,
    top: usize,
    notes: &Notes,
) -> Option<Note>
    requires { Held event.read.bytes.now event.read.scene status.old × Place event.read.bytes.now status.old (segment_at event.read.bytes.now event.at).right top }
    ensures { Steps (Ended event.entry.read.bytes.now event.entry.read.scene event.entry.first event.entry.at status.old notes.now status.new) (EndsAt event.entry.read.bytes.now event.entry.read.scene event.entry.first event.entry.at status.old top) result }
{
    let entries = Entries {
        bytes: event.read.bytes,
        offsets: status.entries(),
    };
    let k = own_below(event, entries.offsets, top)?;
    if !entries.can_meet(k) {
        return None;
    }
    let e = entries.offsets[k] as usize;
    let note = note::note_at(event.read.scene, event.first, notes, e);
    status.remove(k);
    Some(note)
}
