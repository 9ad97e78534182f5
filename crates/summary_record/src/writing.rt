// The 20 bytes of a summary, by value.
ghost use Rattle.std.specs.Prelude.{◌≡◌};
ghost use Rattle.summary.specs.Summary.{bytes_of};

use scene_writing::records::coordinate;
use summary::Summary;

pub fn written(s: Summary) -> [u8; 20]
    ensures { result ≡ bytes_of s }
{
    let mut record = [0u8; 20];
    record[0] = 83;
    record[1] = u8::from(s.shape);
    record[2] = s.empty as u8;
    record[3..7].copy_from_slice(&coordinate(s.bounds.least.x));
    record[7..11].copy_from_slice(&coordinate(s.bounds.least.y));
    record[11..15].copy_from_slice(&coordinate(s.bounds.greatest.x));
    record[15..19].copy_from_slice(&coordinate(s.bounds.greatest.y));
    record[19] = s.boundary as u8;
    record
}
