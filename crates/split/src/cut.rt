// Two objects cut by each other: the pieces of each, or 19 or 20.
ghost use Rattle.std.specs.Prelude.{◌≡◌, ◌<◌, ◌≤◌, ◌-◌, length, MatchResult, Ok, Err, None};
ghost use Rattle.split_cuts.specs.Listed.{segments_of, listed};
ghost use Rattle.split_cuts.specs.Split.{off_grid, split_pieces, most_pieces, Says};
ghost use Rattle.split.specs.Cut.{cut_verdict, CutRight};

use scene::{Reason, Refusal};
use scene_segments::{Object, Pair};
use split_cuts::Segments;
use split_cuts::first::Unsplit;
use split_cuts::pieces::{Pieces, TooMany};

/// The pieces of an object, and how many more they are than its segments.
#[derive(Drop)]
pub struct CutObject {
    pub pieces: Pieces,
    pub added: usize,
}

// The pieces of these segments, cut by the other ones.
fn cut(own: Segments<'_>, other: Segments<'_>) -> Result<CutObject, TooMany>
    ensures { MatchResult result
        (λ c. (c.pieces.items ≡ split_pieces (segments_of other.entry.list.now) own.entry.list.now)
        × (c.added ≡ length (split_pieces (segments_of other.entry.list.now) own.entry.list.now) - length own.entry.list.now)
        × (length c.pieces.items ≤ most_pieces))
        (λ _. most_pieces < length (split_pieces (segments_of other.entry.list.now) own.entry.list.now)) }
{
    let pieces = own.split(other)?;
    let added = pieces.len() - own.list.len();
    Ok(CutObject { pieces, added })
}

// The pieces of the object that the bytes have first, whose segments are own, cut by the other one's.
fn cut_first(
    object: Object<'_>,
    own: Segments<'_>,
    other: Segments<'_>,
) -> Result<CutObject, Unsplit>
    requires { own.list.now ≡ listed object.bytes.now object.layout }
    ensures { MatchResult result
        (λ c. (off_grid object.entry.bytes.now object.entry.layout (segments_of other.entry.list.now) ≡ None)
        × (c.pieces.items ≡ split_pieces (segments_of other.entry.list.now) own.entry.list.now)
        × (c.added ≡ length (split_pieces (segments_of other.entry.list.now) own.entry.list.now) - length own.entry.list.now)
        × (length c.pieces.items ≤ most_pieces))
        (λ u. Says u (off_grid object.entry.bytes.now object.entry.layout (segments_of other.entry.list.now)) (length (split_pieces (segments_of other.entry.list.now) own.entry.list.now))) }
{
    let pieces = split_cuts::first::split_first(object, other)?;
    let added = pieces.len() - own.list.len();
    Ok(CutObject { pieces, added })
}

/// Both objects of a pair, each cut by the other.
#[derive(Drop)]
pub struct CutPair {
    pub own: CutObject,
    pub other: CutObject,
}

pub fn cut_both(pair: Pair<'_>) -> Result<CutPair, Refusal>
    ensures { MatchResult result
        (λ c. (cut_verdict pair.entry.bytes.now pair.entry.own pair.entry.other ≡ Ok tt)
        × CutRight pair.entry.bytes.now pair.entry.own pair.entry.other c.own
        × CutRight pair.entry.bytes.now pair.entry.other pair.entry.own c.other)
        (λ r. cut_verdict pair.entry.bytes.now pair.entry.own pair.entry.other ≡ Err r) }
{
    let own_list = split_cuts::listed(pair.own());
    let other_list = split_cuts::listed(pair.other());
    let own = Segments {
        list: own_list.as_slice(),
    };
    let other = Segments {
        list: other_list.as_slice(),
    };
    let own_cut = match cut_first(pair.own(), own, other) {
        Ok(cut) => cut,
        Err(Unsplit::OffGrid(place)) => return Reason::OffGrid.at(place),
        Err(Unsplit::TooMany) => return Reason::TooManyElements.at(pair.own.start),
    };
    let Ok(other_cut) = cut(other, own) else {
        return Reason::TooManyElements.at(pair.other.start);
    };
    Ok(CutPair {
        own: own_cut,
        other: other_cut,
    })
}
