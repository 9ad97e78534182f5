// A pair as it comes from a survey: refused under 1 to 7 and 10 to 14, whether or not the two objects cross. 10 to 14 are asked of each object's bytes alone, through the sweep;
// where both are refused, the lower number comes first.
ghost use Rattle.std.specs.Prelude.{◌≡◌, ◌+◌, ◌<◌, ◌^◌, cond, ltb, Err};
ghost use Rattle.scene.specs.declared.Refusal.{Refusal};
ghost use Rattle.scene.specs.Read.{number_of};
ghost use Rattle.scene.specs.Conditions.{check_object};
ghost use Rattle.check_verdict.specs.Refusals.{objects_verdict};
ghost use Rattle.split.specs.Split.{check_raw};
ghost use Rattle.split.specs.Joined.{found, earlier, sooner};

use scene::{Refusal, Scene};
use scene_segments::ReadScene;

// What 10 to 14 find in an object by itself, whose bytes begin at a place of the scene's.
fn verdict(bytes: &[u8], start: usize) -> Result<(), Refusal>
    requires { (r : Refusal) → check_object bytes.now ≡ Err r → r.place + start < 2 ^ 64 }
    ensures { result ≡ found start (check_object bytes.now) }
{
    match check_alone::check_object(bytes) {
        Ok(_) => Ok(()),
        Err(refusal) => refusal.reason.at(refusal.place + start),
    }
}

fn earlier(first: Refusal, second: Refusal) -> Refusal
    ensures { result ≡ earlier first second }
{
    if u8::from(second.reason) < u8::from(first.reason) {
        second
    } else {
        first
    }
}

fn sooner(first: Result<(), Refusal>, second: Result<(), Refusal>) -> Result<(), Refusal>
    ensures { result ≡ sooner first second }
{
    let Err(refusal) = first else {
        return second;
    };
    match second {
        Ok(()) => Err(refusal),
        Err(other) => Err(earlier(refusal, other)),
    }
}

fn objects_verdict(read: ReadScene<'_>) -> Result<(), Refusal>
    ensures { result ≡ objects_verdict read.entry.bytes.now read.entry.scene }
{
    let start = read.as_given().other.start;
    sooner(
        verdict(&read.bytes[..start], 0),
        verdict(&read.bytes[start..], start),
    )
}

pub fn check(s: &[u8]) -> Result<Scene, Refusal>
    ensures { result ≡ check_raw s.now }
{
    let scene = scene_reading::read_scene(s)?;
    objects_verdict(ReadScene { bytes: s, scene })?;
    Ok(scene)
}
