// A scene that is taken, and one with the notes that the sweep left of it.
ghost use Rattle.std.specs.Prelude.{◌≡◌, Ok};
ghost use Rattle.scene.specs.Conditions.{check_scene};
ghost use Rattle.sweep_laws.specs.Noted.{Noted};

use scene::Scene;
use scene_segments::ReadScene;
use sweep_notes::Notes;

/// A scene's bytes that the check takes, and the scene in them.
#[derive(Clone, Copy)]
pub struct TakenScene<'a> {
    pub bytes: &'a [u8],
    pub scene: Scene,
    pub ghost taken: { check_scene bytes.now ≡ Ok scene },
}

impl<'a> TakenScene<'a> {
    pub fn read(self) -> ReadScene<'a>
        ensures { (result.bytes.now ≡ self.entry.bytes.now) × (result.scene ≡ self.entry.scene) }
    {
        let TakenScene { bytes, scene } = self;
        ReadScene { bytes, scene }
    }
}

/// A scene that is taken, with the sweep's notes of it.
// Kept flat: with a `TakenScene` as a field it would need a function that makes it, as `Regions` (overlap) does, since bytes and notes are lent for different times.
#[derive(Clone, Copy)]
pub struct NotedScene<'a> {
    pub bytes: &'a [u8],
    pub scene: Scene,
    pub notes: &'a Notes,
    pub ghost taken: { check_scene bytes.now ≡ Ok scene },
    pub ghost noted: { Noted bytes.now scene notes.now },
}

impl<'a> NotedScene<'a> {
    pub fn taken(self) -> TakenScene<'a>
        ensures { (result.bytes.now ≡ self.entry.bytes.now) × (result.scene ≡ self.entry.scene) }
    {
        let NotedScene { bytes, scene, .. } = self;
        TakenScene { bytes, scene }
    }
}
