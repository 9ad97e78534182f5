// The conditions 10 to 15 of document 01 over the bytes of a scene, and its whole check.
// A question with conditions of its own calls them in their order: its 9, `geometry_verdict` or `noted_verdict`, then its 16 and 17.
#![tactic(auto)]

ghost use Rattle.std.specs.Prelude.{◌≡◌, T, Ok};
ghost use Rattle.scene.specs.declared.Flaw.{Flaw};
ghost use Rattle.whole.specs.Decides.{Decides};
ghost use Rattle.scene.specs.Read.{Fault};
ghost use Rattle.scene.specs.Conditions.{or_else, check_scene};
ghost use Rattle.check_conditions.specs.Faults.{fault_under};
ghost use Rattle.sweep_laws.specs.Swept.{InOrder};
ghost use Rattle.sweep_laws.specs.Noted.{Noted};
ghost use Rattle.sweep_notes.specs.Lent.{OnceLaid};
ghost use Rattle.check_verdict.specs.Refusals.{scene_fault_under, flawed, verdict, Finds, geometry_verdict};
ghost use Rattle.check_verdict.specs.SharedPoints.{CheckedMeans};

use scene::{Flaw, Reason, Refusal, Scene};
use scene_segments::{Pair, ReadScene};
use sweep::OrderedScene;
use sweep_notes::Notes;

pub mod taken;

// The flaws of a scene, in the order of their conditions. Its objects can have all but the last, each by itself.
const SCENE_FLAWS: [Flaw; 6] = [
    Flaw::Misplaced,
    Flaw::Unpaired,
    Flaw::Touching,
    Flaw::OddEnd,
    Flaw::WrongIa,
    Flaw::TouchingAcross,
];

// The earliest record of one of two objects that has a flaw: of the first, or else of the second.
// Kept as a match: for `Option::or_else` the closure needs a clause of its own, since none is inferred of it here, and that says `fault_under`'s once more.
fn fault_in_either(pair: Pair<'_>, flaw: Flaw) -> Option<usize>
    ensures { result ≡ or_else (fault_under pair.entry.bytes.now pair.entry.own pair.entry.other flaw) (fault_under pair.entry.bytes.now pair.entry.other pair.entry.own flaw) }
{
    match check_conditions::fault_under(pair, flaw) {
        Some(place) => Some(place),
        None => check_conditions::fault_under(pair.exchanged(), flaw),
    }
}

// The earliest record of a scene that has a flaw.
fn scene_fault(read: ReadScene<'_>, flaw: Flaw) -> Option<usize>
    ensures { result ≡ scene_fault_under read.entry.bytes.now read.entry.scene flaw }
{
    match flaw {
        Flaw::TouchingAcross => check_conditions::fault_under(read.as_given(), flaw),
        _ => fault_in_either(read.as_given(), flaw),
    }
}

// The first refusal for one of several flaws, by the earliest record that has each.
fn first_refusal<F: Fn(Flaw) -> Option<usize>>(flaws: &[Flaw], fault: F) -> Result<(), Refusal>
    requires { F.IsAlwaysCallable fault }
    ensures { (found : Flaw → Fault) → Finds (F.post fault) found → result ≡ verdict (flawed found flaws.now) }
{
    for &flaw in flaws {
        if let Some(place) = fault(flaw) {
            return Reason::Flawed(flaw).at(place);
        }
    }
    Ok(())
}

// The first refusal under 10 to 15 of a scene, condition by condition.
fn plain_verdict(read: ReadScene<'_>) -> Result<(), Refusal>
    ensures { result ≡ geometry_verdict read.entry.bytes.now read.entry.scene }
{
    first_refusal(&SCENE_FLAWS, |flaw| scene_fault(read, flaw))
}

// Does each element of either object come strictly after the one before?
fn is_in_order(read: ReadScene<'_>) -> bool
    ensures { Decides (InOrder read.entry.bytes.now read.entry.scene) result }
{
    check_conditions::order::is_ordered(read.object(true))
        && check_conditions::order::is_ordered(read.object(false))
}

// Is a scene sound, by its order and by the sweep, which is fast? If so, each element is noted.
fn is_swept(read: ReadScene<'_>, notes: &mut Notes) -> bool
    ensures { Decides (geometry_verdict read.entry.bytes.now read.entry.scene ≡ Ok tt) result × (T result → Noted read.entry.bytes.now read.entry.scene notes.new) }
{
    is_in_order(read) && sweep::accepts(OrderedScene { read }, notes)
}

// The first refusal under 10 to 15 of a scene: none, by the sweep, which leaves its notes; else condition by condition, which says where the fault lies.
pub fn noted_verdict(read: ReadScene<'_>, notes: &mut Notes) -> Result<(), Refusal>
    ensures is { (result ≡ geometry_verdict read.entry.bytes.now read.entry.scene) × (result ≡ Ok tt → Noted read.entry.bytes.now read.entry.scene notes.new) }
    ensures lent { OnceLaid notes.new (λ bytes. result ≡ Ok tt → Noted read.entry.bytes.now read.entry.scene bytes) }
{
    if is_swept(read, notes) {
        return Ok(());
    }
    plain_verdict(read)
}

// Do 10 to 15 refuse nothing? Where they do, it is not said where.
pub fn is_sound(read: ReadScene<'_>) -> bool
    ensures { Decides (geometry_verdict read.entry.bytes.now read.entry.scene ≡ Ok tt) result }
{
    is_swept(read, &mut Notes::new())
}

// The verdict alone.
pub fn geometry_verdict(read: ReadScene<'_>) -> Result<(), Refusal>
    ensures { result ≡ geometry_verdict read.entry.bytes.now read.entry.scene }
{
    noted_verdict(read, &mut Notes::new())
}

// A scene's bytes, checked whole: taken, or refused with one number and one place; and what that says of the points that its segments share.
pub fn check_scene(s: &[u8]) -> Result<Scene, Refusal>
    ensures { (result ≡ check_scene s.now) × CheckedMeans s.now result }
{
    let scene = scene_reading::read_scene(s)?;
    geometry_verdict(ReadScene { bytes: s, scene })?;
    Ok(scene)
}
