// Whether a scene has two regions, and whether their overlap list fits a buffer: the scene's bytes checked whole, with 16 last, and 17 after it.
ghost use Rattle.std.specs.Prelude.{◌≡◌, List, ℕ};
ghost use Rattle.sweep_notes.specs.Lent.{OnceLaid};
ghost use Rattle.overlap.specs.Rules.{not_regions, judged, check_regions, check_list, NotedWhere};

use crate::walk;
use scene::{Reason, Refusal, Scene};
use scene_segments::ReadScene;
use sweep_notes::Notes;

// 16: the first type record that is not 3.
fn regions_fault(scene: Scene) -> Option<usize>
    ensures { (s : List ℕ) → result ≡ not_regions s scene }
{
    let first = scene.given_first();
    let second = scene.given_second();
    if !first.shape.is_region() {
        return Some(first.start);
    }
    if second.shape.is_region() {
        None
    } else {
        Some(second.start)
    }
}

// 16, of a scene that passes all before it.
fn judge(scene: Scene) -> Result<Scene, Refusal>
    ensures { (s : List ℕ) → result ≡ judged s scene }
{
    match regions_fault(scene) {
        Some(place) => Reason::NotRegions.at(place),
        None => Ok(scene),
    }
}

// A scene's bytes, checked whole, with 16 last.
pub fn check_regions(s: &[u8], notes: &mut Notes) -> Result<Scene, Refusal>
    ensures is { (result ≡ check_regions s.now) × NotedWhere s.now result notes.new }
    ensures lent { OnceLaid notes.new (NotedWhere s.now result) }
{
    let scene = scene_reading::read_scene(s)?;
    check_verdict::noted_verdict(ReadScene { bytes: s, scene }, notes)?;
    judge(scene)
}

// And with 17 after 16, for a buffer of so many bytes.
pub fn check_list(s: &[u8], room: usize, notes: &mut Notes) -> Result<Scene, Refusal>
    ensures is { (result ≡ check_list s.now room) × NotedWhere s.now result notes.new }
    ensures lent { OnceLaid notes.new (NotedWhere s.now result) }
{
    let scene = check_regions(s, notes)?;
    let read = ReadScene { bytes: s, scene };
    if room < walk::count(read.pair()) {
        return Reason::ShortBuffer.at(0);
    }
    Ok(scene)
}
