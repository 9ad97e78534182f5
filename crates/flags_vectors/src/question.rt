// The vectors question.
ghost use Rattle.std.specs.Prelude.{◌≡◌, true, T, Ok, IfOk};
ghost use Rattle.scene.specs.Conditions.{check_scene};
ghost use Rattle.sweep_laws.specs.Noted.{Noted};
ghost use Rattle.check_verdict.specs.SharedPoints.{CheckedMeans};
ghost use Rattle.flags_meetings.specs.Met.{meetings};
ghost use Rattle.flags_classes.specs.Classed.{classes_of_f, classes_of_g};
ghost use Rattle.flags.specs.Flags.{pack};
ghost use Rattle.flags_masks.specs.declared.Wanted.{Wanted};
ghost use Rattle.flags_masks.specs.Wanted.{only, is_nothing};
ghost use Rattle.flags_table.specs.Table.{flags_of_f_by, flags_of_g_by};
ghost use Rattle.flags_table.specs.Walks.{reads_meetings, reads_classes};
ghost use Rattle.flags_vectors.specs.Vectors.{scene_vectors, given_vectors, these, check_vectors, asked_of, answer_of, vectors_of, vectors_values, NoFlagWrong};

use crate::{SceneVectors, Vectors};
use check_verdict::taken::NotedScene;
use flags_classes::{Classes, ClassesOfBoth};
use flags_masks::{FlagMasks, Wanted};
use flags_meetings::Meetings;
use flags_table::walks;
use scene::{Reason, Refusal, Scene};
use scene_segments::ReadScene;
use sweep_notes::Notes;

// How the elements of a scene meet at points, where a wanted flag is read off that.
fn wanted_meetings(noted: NotedScene<'_>, masks: FlagMasks) -> Meetings
    ensures { T (reads_meetings noted.entry.scene.f.shape noted.entry.scene.g.shape masks.f masks.g) → result ≡ meetings noted.entry.bytes.now noted.entry.scene noted.entry.notes.now }
{
    let scene = noted.scene;
    if walks::reads_meetings(scene.f.shape, scene.g.shape, masks) {
        flags_meetings::meetings_of(noted.taken().read().pair(), noted.notes)
    } else {
        Meetings::default()
    }
}

// The classes of its segments, where a wanted flag is read off those.
fn wanted_classes(noted: NotedScene<'_>, masks: FlagMasks) -> ClassesOfBoth
    ensures { T (reads_classes noted.entry.scene.f.shape noted.entry.scene.g.shape masks.f masks.g)
        → (result.f ≡ classes_of_f noted.entry.bytes.now noted.entry.scene noted.entry.notes.now) × (result.g ≡ classes_of_g noted.entry.bytes.now noted.entry.scene noted.entry.notes.now) }
{
    let scene = noted.scene;
    if walks::reads_classes(scene.f.shape, scene.g.shape, masks) {
        flags_classes::classes_of(noted.taken(), noted.notes)
    } else {
        ClassesOfBoth::default()
    }
}

// The wanted flags of an object, by the meetings and its classes: where none is wanted, none is looked up.
// Kept as a function for each object: they read two tables.
fn wanted_of_f(scene: Scene, met: Meetings, classes: Classes, mask: u16) -> u16
    ensures { result ≡ only mask (pack (flags_of_f_by scene.f.shape scene.g.shape met classes)) }
{
    if mask == 0 {
        return 0;
    }
    flags_table::flags_of_f(scene.f.shape, scene.g.shape, met, classes) & mask
}

fn wanted_of_g(scene: Scene, met: Meetings, classes: Classes, mask: u16) -> u16
    ensures { result ≡ only mask (pack (flags_of_g_by scene.f.shape scene.g.shape met classes)) }
{
    if mask == 0 {
        return 0;
    }
    flags_table::flags_of_g(scene.f.shape, scene.g.shape, met, classes) & mask
}

// The wanted flags of both objects, from what the sweep noted.
fn swept_vectors(noted: NotedScene<'_>, masks: FlagMasks) -> Vectors
    ensures { result ≡ scene_vectors noted.entry.bytes.now noted.entry.scene masks }
{
    let scene = noted.scene;
    let met = wanted_meetings(noted, masks);
    let beside = wanted_classes(noted, masks);
    Vectors {
        f: wanted_of_f(scene, met, beside.f, masks.f),
        g: wanted_of_g(scene, met, beside.g, masks.g),
    }
}

// The vectors of F and G, in the caller's order.
fn as_given(scene: Scene, v: Vectors) -> Vectors
    ensures { result ≡ given_vectors scene v }
{
    Vectors {
        f: scene.as_given(v.f, v.g),
        g: scene.as_given(v.g, v.f),
    }
}

// A scene that the checks take, and the flags of F and of G that are wanted of it.
#[derive(Clone, Copy)]
pub struct MaskedScene {
    pub scene: Scene,
    pub masks: FlagMasks,
}

// The checks before any flag is looked for: a scene and what is wanted are taken, and the sweep leaves its notes, or they are refused with one number and one place.
pub fn asked(s: &[u8], wanted: Wanted, notes: &mut Notes) -> Result<MaskedScene, Refusal>
    ensures is { result ≡ asked_of s.now wanted }
    ensures noted { IfOk result (λ a. (check_scene s.now ≡ Ok a.scene) × Noted s.now a.scene notes.new) }
{
    let scene = scene_reading::read_scene(s)?;
    let masks = flags_masks::masks_for(wanted, scene);
    if flags_masks::any_stray(scene, masks) {
        return Reason::StrayFlag.at(0);
    }
    check_verdict::noted_verdict(ReadScene { bytes: s, scene }, notes)?;
    Ok(MaskedScene { scene, masks })
}

// Where no flag is wanted: the scene's check, since 9 then finds nothing, and two vectors with no flag.
// Kept out of its caller, as the other one is: what the two keep on the stack does not add up.
#[inline(never)]
fn unflagged(s: &[u8]) -> Result<SceneVectors, Refusal>
    ensures { (wanted : Wanted) → is_nothing wanted ≡ true → result ≡ answer_of s.now wanted }
{
    let scene = check_verdict::check_scene(s)?;
    Ok(SceneVectors {
        scene,
        vectors: Vectors::NONE,
    })
}

// The answer where some flag is wanted.
// Kept out of its caller: what it keeps of its walks on the stack is not laid out where none is walked.
#[inline(never)]
fn flagged(s: &[u8], wanted: Wanted) -> Result<SceneVectors, Refusal>
    ensures { result ≡ answer_of s.now wanted }
{
    let mut notes = Notes::new();
    let MaskedScene { scene, masks } = asked(s, wanted, &mut notes)?;
    let noted = NotedScene {
        bytes: s,
        scene,
        notes: &notes,
    };
    let vectors = as_given(scene, swept_vectors(noted, masks));
    Ok(SceneVectors { scene, vectors })
}

// A scene and what is wanted: taken, with the scene and a vector for each object, or refused.
pub fn answer(s: &[u8], wanted: Wanted) -> Result<SceneVectors, Refusal>
    ensures { result ≡ answer_of s.now wanted }
{
    if wanted.is_nothing() {
        unflagged(s)
    } else {
        flagged(s, wanted)
    }
}

// The vectors question: no flag is wrong, and what the verdict says in points.
pub fn vectors(s: &[u8], want_f: u16, want_g: u16) -> Result<Vectors, Refusal>
    ensures { (result ≡ vectors_of s.now want_f want_g)
        × NoFlagWrong s.now want_f want_g (vectors_values result).f (vectors_values result).g
        × CheckedMeans s.now (check_vectors s.now (these want_f want_g)) }
{
    let wanted = Wanted::These(FlagMasks {
        f: want_f,
        g: want_g,
    });
    Ok(answer(s, wanted)?.vectors)
}
