// The list of two regions in a lent buffer: the byte of each different segment.
ghost use Rattle.std.specs.Prelude.{◌≡◌, ◌++◌, length, drop};
ghost use Rattle.overlap.specs.Rules.{list_of, check_list};

use crate::regions::Regions;
use crate::walk::MergedSides;

// Writes the list from the start of a buffer with room for it, and says how long it is.
// Counted by hand: the count is what is answered, and enumerate does not hand it out.
pub fn write(regions: Regions<'_>, list: &mut [u8]) -> usize
    requires { check_list regions.read.bytes.now (length list.old) ≡ Ok regions.read.scene }
    ensures { (result ≡ length (list_of regions.entry.read.bytes.now regions.entry.read.scene))
        × (list.new ≡ list_of regions.entry.read.bytes.now regions.entry.read.scene ++ drop (length (list_of regions.entry.read.bytes.now regions.entry.read.scene)) list.old) }
{
    let mut n: usize = 0;
    for next in MergedSides::of(regions) {
        list[n] = next.byte();
        n += 1;
    }
    n
}
