// The object that the bytes have first: its pieces, and 19. Both are found in one pass over all pairs of segments.
ghost use Rattle.std.specs.Prelude.{◌≡◌, ◌<◌, length, MatchResult, None, Some};
ghost use Rattle.split_pieces.specs.Pieces.{pieces_from};
ghost use Rattle.split_cuts.specs.Listed.{segments_of, listed};
ghost use Rattle.split_cuts.specs.Split.{off_grid, split_pieces, Fits, Says};

use crate::pieces::{Pieces, put_pieces};
use crate::{Piece, Segments};
use plane::Point;
use scene_segments::Object;
use split_crossing::cuts::Cuts;

/// Why the first object has no pieces: a segment crosses one of the others off the grid, and the record where; or there is no room for all of them.
#[derive(Clone, Copy)]
pub enum Unsplit {
    OffGrid(usize),
    TooMany,
}

// Puts the pieces of a segment, if there was room for those before. Is there room for these?
fn has_room_for(row: &mut Pieces, cuts: &[Point], whole: Piece, had_room: bool) -> bool
    ensures { Fits result had_room row.old.items row.new.items whole.ia (pieces_from (length cuts.now) cuts.now whole.segment.left whole.segment.right) }
{
    had_room && put_pieces(row, cuts, whole).is_ok()
}

// All pieces of an object, split by the other segments. The earliest crossing off the grid comes before too many pieces, so the pass goes on where these have no room.
pub fn split_first(own: Object<'_>, other: Segments<'_>) -> Result<Pieces, Unsplit>
    ensures { MatchResult result
        (λ row. (off_grid own.entry.bytes.now own.entry.layout (segments_of other.entry.list.now) ≡ None)
        × (row.items ≡ split_pieces (segments_of other.entry.list.now) (listed own.entry.bytes.now own.entry.layout)))
        (λ u. Says u (off_grid own.entry.bytes.now own.entry.layout (segments_of other.entry.list.now))
        (length (split_pieces (segments_of other.entry.list.now) (listed own.entry.bytes.now own.entry.layout)))) }
{
    if !own.has_segments() {
        return Ok(Pieces::new());
    }
    let mut row = Pieces::new();
    let mut found = Cuts::new();
    let mut has_room = true;
    for i in 0..own.layout.count {
        let h = own.half(i);
        if h.is_left {
            if other.cuts_of(h.segment, &mut found) {
                return Err(Unsplit::OffGrid(own.place(i)));
            }
            let whole = Piece {
                segment: h.segment,
                ia: own.ia(i),
            };
            has_room = has_room_for(&mut row, found.as_slice(), whole, has_room);
        }
    }
    if !has_room {
        return Err(Unsplit::TooMany);
    }
    Ok(row)
}
