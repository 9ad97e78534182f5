// Two regions of a scene that is taken, with the sweep's notes of them.
ghost use Rattle.std.specs.Prelude.{◌≡◌, ◌≤◌, length, map, take};
ghost use Rattle.sweep_laws.specs.Noted.{Noted};
ghost use Rattle.sweep_notes.specs.Numbers.{as_read};
ghost use Rattle.overlap.specs.Walked.{TwoRegions};

use scene::Scene;
use scene_segments::ReadScene;
use sweep_notes::Notes;

/// The scene of the two regions where it was read, and the notes that the sweep left.
#[derive(Clone, Copy)]
pub struct Regions<'a> {
    pub read: ReadScene<'a>,
    pub notes: &'a Notes,
    pub ghost two: { TwoRegions read.bytes.now read.scene },
    pub ghost noted: { Noted read.bytes.now read.scene notes.now },
}

impl<'a> Regions<'a> {
    // Kept as a function: the borrow checker does not cover a literal here, whose `read`, a struct that holds a reference, is given one that lives longer than
    // the notes. A call shortens it.
    pub fn of(read: ReadScene<'a>, notes: &'a Notes) -> Regions<'a>
        requires { TwoRegions read.bytes.now read.scene × Noted read.bytes.now read.scene notes.now }
        ensures { (result.read ≡ read.entry) × (result.notes.now ≡ notes.now) }
    {
        Regions { read, notes }
    }

    // By the notes that lent bytes hold, of whatever length from 2,048 on. They are read into `notes`.
    pub fn of_lent(bytes: &'a [u8], scene: Scene, lent: &[u8], notes: &'a mut Notes) -> Regions<'a>
        requires { TwoRegions bytes.now scene × (2048 ≤ length lent.now) × Noted bytes.now scene lent.now }
        ensures { (result.read.bytes.now ≡ bytes.now) × (result.read.scene ≡ scene) × (result.notes.now ≡ map as_read (take 2048 lent.now)) }
    {
        *notes = Notes::of_bytes(lent);
        Regions::of(ReadScene { bytes, scene }, notes)
    }
}
