// The overlap list of two regions, into a lent buffer: each different segment gives one byte.
#![tactic(auto)]

ghost use Rattle.std.specs.Prelude.{◌≡◌, length};
ghost use Rattle.check_verdict.specs.SharedPoints.{CheckedMeans};
ghost use Rattle.overlap.specs.Rules.{check_list};
ghost use Rattle.overlap.specs.Overlap.{overlap_of, buffer_after};

use regions::Regions;
use scene::Refusal;
use scene_segments::ReadScene;
use sweep_notes::Notes;

pub mod adjoining;
pub mod refusals;
pub mod regions;
pub mod walk;
pub mod written;

// The overlap list question: the list in the first bytes of the buffer and its length, or a refusal and the buffer as it was; and what the verdict says in
// points.
pub fn overlap_list(s: &[u8], list: &mut [u8]) -> Result<usize, Refusal>
    ensures { (result ≡ overlap_of s.now list.old)
        × (list.new ≡ buffer_after s.now list.old)
        × CheckedMeans s.now (check_list s.now (length list.old)) }
{
    let mut notes = Notes::new();
    let scene = refusals::check_list(s, list.len(), &mut notes)?;
    let regions = Regions::of(ReadScene { bytes: s, scene }, &notes);
    Ok(written::write(regions, list))
}
