// The beginning of a walk: the checks of the vectors question, then the ground is laid, and the state is that at which no event is taken.
ghost use Rattle.std.specs.Prelude.{Ok, ◌≡◌, length};
ghost use Rattle.flags_vectors.specs.Vectors.{these};
ghost use Rattle.walk.specs.Walked.{begun_as, begin_of, LaidFor, GroundAfter};
ghost use Rattle.walk.specs.Theorems.{WalkPromised};

use crate::{Walk, laying};
use check_verdict::taken::NotedScene;
use flags_masks::{FlagMasks, Wanted};
use flags_vectors::question::MaskedScene;
use flags_vectors::{Vectors, question};
use scene::{Reason, Refusal};
use sweep_notes::Notes;

// Of a scene that the checks take: its ground is laid in the lent buffer, if that has four bytes for each element.
#[tactic(auto, using(crate::proofs::Points::few_elements))]
fn begun(noted: NotedScene<'_>, want: FlagMasks, ground: &mut [u8]) -> Result<Walk, Refusal>
    ensures is { result ≡ begun_as noted.entry.bytes.now noted.entry.scene want (length ground.old) }
    ensures ground { LaidFor noted.entry.bytes.now noted.entry.scene ground.old ground.new result }
{
    let scene = noted.scene;
    if ground.len() < 4 * (scene.f.count + scene.g.count) {
        return Reason::NoRoom.at(0);
    }
    let events = laying::lay(noted, ground);
    Ok(Walk {
        f: scene.f.shape,
        g: scene.g.shape,
        is_turned: scene.is_turned(),
        want,
        events,
        taken: 0,
        found: Vectors::NONE,
    })
}

// A scene and two wanted masks, in the caller's order: refused as the vectors question refuses them, or begun, with what is promised of all portions then.
pub fn begin(s: &[u8], want_f: u16, want_g: u16, ground: &mut [u8]) -> Result<Walk, Refusal>
    ensures is { result ≡ begin_of s.now (these want_f want_g) (length ground.old) }
    ensures ground { GroundAfter s.now ground.old ground.new result }
    ensures promised { WalkPromised s.now want_f want_g ground.new result }
{
    let wanted = Wanted::These(FlagMasks {
        f: want_f,
        g: want_g,
    });
    let mut notes = Notes::new();
    let MaskedScene { scene, masks } = question::asked(s, wanted, &mut notes)?;
    let noted = NotedScene {
        bytes: s,
        scene,
        notes: &notes,
    };
    begun(noted, masks, ground)
}
