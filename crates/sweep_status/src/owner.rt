// Whose an event is, and whose an entry of the status: the bytes have all records of one object before all of the other.
ghost use Rattle.std.specs.Prelude.{◌≡◌, List, ℕ};
ghost use Rattle.sweep_laws.specs.Swept.{is_first, Entry};
ghost use Rattle.sweep_laws.proofs.Objects.{entry_once};

use scene::Scene;
use scene_segments::ReadScene;

/// A halfsegment that the sweep comes to, where the scene was read: whether it is F's, and the offset of its record.
// `first` is kept as a yes or no, and no enum: it is compared with whether the objects were exchanged, and the definitions (sweep_laws) ask for an object
// by it.
#[derive(Clone, Copy)]
pub struct Event<'a> {
    pub read: ReadScene<'a>,
    pub first: bool,
    pub at: usize,
    pub ghost recorded: { Entry read.bytes.now read.scene at } by { entry_once read.bytes.now read.scene at },
    pub ghost owned: { is_first read.bytes.now read.scene at ≡ first },
}

// Is the record at an offset F's?
pub fn is_first(scene: Scene, at: usize) -> bool
    ensures { (s : List ℕ) → result ≡ is_first s scene at }
{
    (at < scene.given_second().start) != scene.is_turned()
}
