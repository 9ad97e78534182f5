// The splitter: two objects cut where they cross or touch each other, written as an accepted scene.
#![tactic(auto)]

ghost use Rattle.std.specs.Prelude.{◌≡◌, not, ◌&&◌, length};
ghost use Rattle.scene.specs.Conditions.{has_segments};
ghost use Rattle.split.specs.Split.{split_answer, split_buffer};
ghost use Rattle.split.specs.Promised.{Promised};
ghost use Rattle.split.specs.OffGrid.{OffGridMeans};

use scene::Refusal;
use scene_segments::{Pair, ReadScene};

pub mod cut;
pub mod raw;
pub mod written;

/// The numbers of segments that are added to each object, the one given first first, and how many bytes are written.
#[derive(Clone, Copy)]
pub struct Splitted {
    pub added_f: usize,
    pub added_g: usize,
    pub length: usize,
}

// "A scene holding a points object is copied."
fn is_copied(pair: Pair<'_>) -> bool
    ensures { result ≡ not (has_segments pair.entry.own.shape && has_segments pair.entry.other.shape) }
{
    !(pair.own.shape.has_segments() && pair.other.shape.has_segments())
}

// Splits a pair into a lent buffer, of which nothing is written before 19, 20 and 21 are decided.
pub fn split(scene: &[u8], out: &mut [u8]) -> Result<Splitted, Refusal>
    ensures is { result ≡ split_answer scene.now out.old }
    ensures buffer { out.new ≡ split_buffer scene.now out.old }
    ensures promised { Promised scene.now (length out.old) }
    ensures off_grid { OffGridMeans scene.now (length out.old) }
{
    let checked = raw::check(scene)?;
    let pair = ReadScene {
        bytes: scene,
        scene: checked,
    }
    .as_given();
    if is_copied(pair) {
        return written::hand_over(scene, 0, 0, out);
    }
    let cut = cut::cut_both(pair)?;
    let bytes = written::both(pair, &cut);
    written::hand_over(bytes.as_slice(), cut.own.added, cut.other.added, out)
}
