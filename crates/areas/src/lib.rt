// Shared and separate ground of two regions: twice the area in both, in F only and in G only, in whole numbers.
#![tactic(auto)]

ghost use Rattle.std.specs.Prelude.{◌≡◌};
ghost use Rattle.check_verdict.specs.SharedPoints.{CheckedMeans};
ghost use Rattle.overlap.specs.Rules.{check_regions};
ghost use Rattle.areas.specs.Areas.{areas_of, areas_values, PartsMakeWhole};

use overlap::refusals;
use overlap::regions::Regions;
use scene::Refusal;
use scene_segments::ReadScene;
use sums::Sums;
use sweep_notes::Notes;

pub mod sums;

// The areas question: the three areas, or a refusal; that two of them make up each region; and what the verdict says in points.
pub fn areas_of(s: &[u8]) -> Result<Sums, Refusal>
    ensures { (result ≡ areas_of s.now)
        × PartsMakeWhole s.now (areas_values result).both (areas_values result).f_only (areas_values result).g_only
        × CheckedMeans s.now (check_regions s.now) }
{
    let mut notes = Notes::new();
    let scene = refusals::check_regions(s, &mut notes)?;
    let regions = Regions::of(ReadScene { bytes: s, scene }, &notes);
    Ok(sums::sums_of(regions))
}
