// One object by itself, through the sweep: it is laid beside an empty one of its type. The two form a scene that is refused as the object is, at the same place.
#![tactic(auto)]

ghost use Rattle.std.specs.Prelude.{◌≡◌, ◌++◌, ◌+◌, ◌≤◌, Ok};
ghost use Rattle.whole.specs.Decides.{Decides};
ghost use Rattle.scene.specs.Read.{IsScene, read_alone};
ghost use Rattle.scene.specs.Conditions.{check_object};
ghost use Rattle.check_verdict.specs.Refusals.{object_verdict, geometry_verdict};
ghost use Rattle.check_verdict.specs.SharedPoints.{CheckedObjectMeans};
ghost use Rattle.arrayvec.specs.ArrayVec.{array_vec_len};
ghost use Rattle.check_alone.specs.Beside.{empty_of};

use arrayvec::ArrayVec;
use scene::{Layout, Refusal, Scene, Shape};
use scene_segments::ReadScene;

/// The bytes of the longest object and of an empty one.
pub const ROOM: usize = 19_462;

// An empty object behind the bytes that stand in a vector.
pub fn lay_empty<const ROOM: usize>(bytes: &mut ArrayVec<u8, ROOM>, k: Shape)
    requires { array_vec_len bytes.old + 3 ≤ ROOM }
    ensures { bytes.new.items ≡ bytes.old.items ++ empty_of k }
{
    scene_writing::append(bytes, &[84, u8::from(k), 69]);
}

// The scene of an object that was read from these bytes and of an empty one, which is laid behind them.
fn lay_beside<const ROOM: usize>(bytes: &mut ArrayVec<u8, ROOM>, l: Layout) -> Scene
    requires read { read_alone bytes.old.items ≡ Ok l }
    requires room { array_vec_len bytes.old + 3 ≤ ROOM }
    ensures read { IsScene bytes.new.items result }
    ensures alike { geometry_verdict bytes.new.items result ≡ object_verdict bytes.old.items l }
    ensures laid { bytes.new.items ≡ bytes.old.items ++ empty_of l.shape }
{
    let empty = Layout {
        shape: l.shape,
        start: bytes.len(),
        count: 0,
    };
    lay_empty(bytes, l.shape);
    Scene::arranged(l, empty)
}

// The first refusal under 10 to 14 of an object that was read from these bytes. They are given back as they were.
pub fn verdict<const ROOM: usize>(bytes: &mut ArrayVec<u8, ROOM>, l: Layout) -> Result<(), Refusal>
    requires read { read_alone bytes.old.items ≡ Ok l }
    requires room { array_vec_len bytes.old + 3 ≤ ROOM }
    ensures found { result ≡ object_verdict bytes.old.items l }
    ensures same { bytes.new.items ≡ bytes.old.items }
{
    let end = bytes.len();
    let scene = lay_beside(bytes, l);
    let verdict = check_verdict::geometry_verdict(ReadScene {
        bytes: bytes.as_slice(),
        scene,
    });
    bytes.truncate(end);
    verdict
}

// Is there none? Where there is one, it is not said which.
pub fn is_sound<const ROOM: usize>(bytes: &mut ArrayVec<u8, ROOM>, l: Layout) -> bool
    requires read { read_alone bytes.old.items ≡ Ok l }
    requires room { array_vec_len bytes.old + 3 ≤ ROOM }
    ensures decides { Decides (object_verdict bytes.old.items l ≡ Ok tt) result }
    ensures same { bytes.new.items ≡ bytes.old.items }
{
    let end = bytes.len();
    let scene = lay_beside(bytes, l);
    let sound = check_verdict::is_sound(ReadScene {
        bytes: bytes.as_slice(),
        scene,
    });
    bytes.truncate(end);
    sound
}

// One object's bytes alone, and what the verdict says of the points that its segments share.
pub fn check_object(s: &[u8]) -> Result<Layout, Refusal>
    ensures { (result ≡ check_object s.now) × CheckedObjectMeans s.now result }
{
    let layout = scene_reading::read_alone(s)?;
    let mut bytes = ArrayVec::<u8, ROOM>::new();
    scene_writing::append(&mut bytes, s);
    verdict(&mut bytes, layout)?;
    Ok(layout)
}
