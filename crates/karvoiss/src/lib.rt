// What C programs call: every function is total, keeps no state and allocates nothing. include/karvoiss.h is for those who call them.
#![tactic(auto)]

ghost use Rattle.std.specs.Prelude.{◌≡◌, cond, length};
ghost use Rattle.check_verdict.specs.SharedPoints.{CheckedMeans, CheckedObjectMeans};
ghost use Rattle.flags_vectors.specs.Vectors.{these, check_vectors, vectors_of, NoFlagWrong};
ghost use Rattle.scene.specs.Conditions.{check_scene, check_object};
ghost use Rattle.cells.specs.Explored.{cells_answer_of};
ghost use Rattle.cells_pattern.specs.Related.{check_relate, relate_of, NoPatternWrong};
ghost use Rattle.overlap.specs.Rules.{check_list, check_regions};
ghost use Rattle.overlap.specs.Overlap.{overlap_of, buffer_after};
ghost use Rattle.areas.specs.Areas.{areas_of, PartsMakeWhole};
ghost use Rattle.summary.specs.Summary.{asked_of};
ghost use Rattle.summary_objects.specs.Objects.{GoodExactlyIfMade, ToldInFull, LookExactlyIfNear};
ghost use Rattle.summary_making.specs.Making.{summary_answer_of};
ghost use Rattle.karvoiss.specs.Answer.{outcome, vectors_for_c, row_signs, signs, cells_for_c, NoSignWrong, relate_for_c, overlap_for_c, areas_for_c, summary_for_c, far_for_c, at, estimate_for_c, in_window_for_c, from_c, read_wkb_for_c, write_wkb_for_c, split_for_c};
ghost use Rattle.estimate.specs.Estimate.{estimated, EstimateHolds};
ghost use Rattle.summary_window.specs.Window.{answer_of, BadRight, HitsRight};
ghost use Rattle.wkb_reading.specs.Reading.{read_file, ReadAsWritten};
ghost use Rattle.wkb_reading.specs.Reading.{buffer_after as object_after};
ghost use Rattle.wkb_writing.specs.Writing.{write_of, written_buffer};
ghost use Rattle.wkb_round_trip.specs.RoundTrip.{RoundTrip};
ghost use Rattle.split.specs.Split.{split_answer, split_buffer};
ghost use Rattle.split.specs.Promised.{Promised};
ghost use Rattle.split.specs.OffGrid.{OffGridMeans};
ghost use Rattle.walk.specs.Walked.{begin_of, GroundAfter};
ghost use Rattle.walk.specs.Theorems.{WalkPromised};
ghost use Rattle.karvoiss.specs.Walks.{state_for_c, walk_for_c, type_test, state_of, portion_for_c, ComesBack};

use areas::sums::Sums;
use cells::Explored;
use estimate::Estimated;
use flags_masks::FlagMasks;
use flags_vectors::{Vectors, question};
use plane::Point;
use plane_dimensions::Dimension;
use scene::{Reason, Refusal, records};
use split::Splitted;
use summary::Summary;
use summary_record::writing;
use summary_window::{InWindow, Window};
use walk::Walk;
use wkb_grammar::Fault;
use wkb_reading::ReadFault;

// Each struct that C gets is made from the answer of its question: number 0 and the values, or a refusal's number and place with zeros beside them.
// Kept as a struct and an `impl From` for each call, with number and place in each: they are the header's types.

// The number and the place of an answer: zeros where it is taken.
fn outcome<T>(answer: &Result<T, Refusal>) -> (u32, usize)
    ensures { result ≡ outcome answer.now }
{
    match answer {
        Ok(_) => (0, 0),
        Err(r) => (u8::from(r.reason) as u32, r.place),
    }
}

// The vectors beside a refusal, and beside "look".
const NO_FLAG: Vectors = Vectors { f: 0, g: 0 };

#[repr(C)]
#[derive(Clone, Copy)]
pub struct KarvoissVectors {
    pub number: u32,
    pub place: usize,
    pub f: u16,
    pub g: u16,
}

impl From<Result<Vectors, Refusal>> for KarvoissVectors {
    ghost from_gives = { λ answer c. c ≡ vectors_for_c answer };

    fn from(answer: Result<Vectors, Refusal>) -> KarvoissVectors {
        let (number, place) = outcome(&answer);
        let vectors = answer.unwrap_or(NO_FLAG);
        KarvoissVectors {
            number,
            place,
            f: vectors.f,
            g: vectors.g,
        }
    }
}

// The vectors question: for every byte string and every two masks the whole answer; no flag is wrong; and what the verdict says in points.
#[unsafe(no_mangle)]
pub extern "C" fn karvoiss_vectors(scene: &[u8], want_f: u16, want_g: u16) -> KarvoissVectors
    ensures { (result ≡ vectors_for_c (vectors_of scene.now want_f want_g))
        × NoFlagWrong scene.now want_f want_g result.f result.g
        × CheckedMeans scene.now (check_vectors scene.now (these want_f want_g)) }
{
    question::vectors(scene, want_f, want_g).into()
}

#[repr(C)]
#[derive(Clone, Copy)]
pub struct KarvoissCells {
    pub number: u32,
    pub place: usize,
    pub cell: [[u8; 3]; 3],
}

fn row_signs(row: [Dimension; 3]) -> [u8; 3]
    ensures { result ≡ row_signs row }
{
    row.map(u8::from)
}

// The signs of nine cells.
fn signs(m: [[Dimension; 3]; 3]) -> [[u8; 3]; 3]
    ensures { result ≡ signs m }
{
    m.map(row_signs)
}

impl From<Result<Explored, Refusal>> for KarvoissCells {
    ghost from_gives = { λ answer c. c ≡ cells_for_c answer };

    fn from(answer: Result<Explored, Refusal>) -> KarvoissCells {
        let (number, place) = outcome(&answer);
        KarvoissCells {
            number,
            place,
            cell: signs(cells::question::cells(answer)),
        }
    }
}

// The cells question: for every byte string the whole answer; no sign is wrong; and what the verdict says in points.
#[unsafe(no_mangle)]
pub extern "C" fn karvoiss_cells(scene: &[u8]) -> KarvoissCells
    ensures { (result ≡ cells_for_c (cells_answer_of scene.now))
        × NoSignWrong scene.now result.cell
        × CheckedMeans scene.now (check_scene scene.now) }
{
    cells::question::explore(scene).into()
}

#[repr(C)]
#[derive(Clone, Copy)]
pub struct KarvoissRelate {
    pub number: u32,
    pub place: usize,
    pub holds: bool,
}

impl From<Result<bool, Refusal>> for KarvoissRelate {
    ghost from_gives = { λ answer c. c ≡ relate_for_c answer };

    fn from(answer: Result<bool, Refusal>) -> KarvoissRelate {
        let (number, place) = outcome(&answer);
        KarvoissRelate {
            number,
            place,
            holds: answer.unwrap_or(false),
        }
    }
}

// The pattern question: for every two byte strings the whole answer; it is not wrong in points; and what the verdict says in points.
#[unsafe(no_mangle)]
pub extern "C" fn karvoiss_relate(scene: &[u8], pattern: &[u8]) -> KarvoissRelate
    ensures { (result ≡ relate_for_c (relate_of scene.now pattern.now))
        × NoPatternWrong scene.now pattern.now result.holds
        × CheckedMeans scene.now (check_relate scene.now pattern.now) }
{
    cells_pattern::question::relate(scene, pattern).into()
}

#[repr(C)]
#[derive(Clone, Copy)]
pub struct KarvoissOverlap {
    pub number: u32,
    pub place: usize,
    pub count: usize,
}

impl From<Result<usize, Refusal>> for KarvoissOverlap {
    ghost from_gives = { λ answer c. c ≡ overlap_for_c answer };

    fn from(answer: Result<usize, Refusal>) -> KarvoissOverlap {
        let (number, place) = outcome(&answer);
        KarvoissOverlap {
            number,
            place,
            count: answer.unwrap_or(0),
        }
    }
}

// The overlap list question, into a lent buffer.
#[unsafe(no_mangle)]
pub extern "C" fn karvoiss_overlap(scene: &[u8], list: &mut [u8]) -> KarvoissOverlap
    ensures { (result ≡ overlap_for_c (overlap_of scene.now list.old))
        × (list.new ≡ buffer_after scene.now list.old)
        × CheckedMeans scene.now (check_list scene.now (length list.old)) }
{
    overlap::overlap_list(scene, list).into()
}

#[repr(C)]
#[derive(Clone, Copy)]
pub struct KarvoissAreas {
    pub number: u32,
    pub place: usize,
    pub both: i64,
    pub f_only: i64,
    pub g_only: i64,
}

impl From<Result<Sums, Refusal>> for KarvoissAreas {
    ghost from_gives = { λ answer c. c ≡ areas_for_c answer };

    fn from(answer: Result<Sums, Refusal>) -> KarvoissAreas {
        let (number, place) = outcome(&answer);
        let sums = answer.unwrap_or(Sums {
            both: 0,
            f_only: 0,
            g_only: 0,
        });
        KarvoissAreas {
            number,
            place,
            both: sums.both,
            f_only: sums.f_only,
            g_only: sums.g_only,
        }
    }
}

// The areas question: for every byte string the whole answer; two of the areas make up each region; and what the verdict says in points.
#[unsafe(no_mangle)]
pub extern "C" fn karvoiss_areas(scene: &[u8]) -> KarvoissAreas
    ensures { (result ≡ areas_for_c (areas_of scene.now))
        × PartsMakeWhole scene.now result.both result.f_only result.g_only
        × CheckedMeans scene.now (check_regions scene.now) }
{
    areas::areas_of(scene).into()
}

#[repr(C)]
#[derive(Clone, Copy)]
pub struct KarvoissSummary {
    pub number: u32,
    pub place: usize,
    pub record: [u8; 20],
}

impl From<Result<Summary, Refusal>> for KarvoissSummary {
    ghost from_gives = { λ answer c. c ≡ summary_for_c answer };

    fn from(answer: Result<Summary, Refusal>) -> KarvoissSummary {
        let (number, place) = outcome(&answer);
        KarvoissSummary {
            number,
            place,
            record: answer.map_or([0; 20], writing::written),
        }
    }
}

// The call on one object: for every byte string the whole answer, and what the verdict says in points.
#[unsafe(no_mangle)]
pub extern "C" fn karvoiss_summary(object: &[u8]) -> KarvoissSummary
    ensures { (result ≡ summary_for_c (summary_answer_of object.now))
        × CheckedObjectMeans object.now (check_object object.now) }
{
    summary_making::summarize(object).into()
}

#[repr(C)]
#[derive(Clone, Copy)]
pub struct KarvoissFar {
    pub number: u32,
    pub place: usize,
    pub look: bool,
    pub f: u16,
    pub g: u16,
}

impl From<Result<Option<Vectors>, Refusal>> for KarvoissFar {
    ghost from_gives = { λ answer c. c ≡ far_for_c answer };

    fn from(answer: Result<Option<Vectors>, Refusal>) -> KarvoissFar {
        let (number, place) = outcome(&answer);
        // Kept as a match, with the three answers side by side: by two `unwrap_or` a refusal, which is no "look", would first become `Some(NO_FLAG)`.
        let (look, v) = match answer {
            Ok(Some(v)) => (false, v),
            Ok(None) => (true, NO_FLAG),
            Err(_) => (false, NO_FLAG),
        };
        KarvoissFar {
            number,
            place,
            look,
            f: v.f,
            g: v.g,
        }
    }
}

// The far question over two summaries: for every two byte strings the whole answer; what is made is taken, and nothing else; where vectors are told, every two accepted objects that have these summaries
// form an accepted scene, and they are its vectors in full; "look" exactly where neither is empty and the boxes share a point.
#[unsafe(no_mangle)]
pub extern "C" fn karvoiss_far(first: &[u8], second: &[u8]) -> KarvoissFar
    ensures { (result ≡ far_for_c (asked_of first.now second.now))
        × GoodExactlyIfMade first.now × GoodExactlyIfMade second.now
        × ToldInFull first.now second.now (asked_of first.now second.now)
        × LookExactlyIfNear first.now second.now (asked_of first.now second.now) }
{
    summary_far::far(first, second).into()
}

#[repr(C)]
#[derive(Clone, Copy)]
pub struct KarvoissEstimate {
    pub estimate: f32,
    pub side: i32,
}

impl From<Estimated> for KarvoissEstimate {
    ghost from_gives = { λ answer c. c ≡ estimate_for_c answer };

    fn from(answer: Estimated) -> KarvoissEstimate {
        KarvoissEstimate {
            estimate: answer.estimate,
            side: answer.side.into(),
        }
    }
}

// The side estimate of the point c against the segment from a to b: for every six numbers the whole answer, and what it says of the exact side value.
#[unsafe(no_mangle)]
pub extern "C" fn karvoiss_estimate(
    ax: i32,
    ay: i32,
    bx: i32,
    by: i32,
    cx: i32,
    cy: i32,
) -> KarvoissEstimate
    ensures { (result ≡ estimate_for_c (estimated (at ax ay) (at bx by) (at cx cy)))
        × EstimateHolds (at ax ay) (at bx by) (at cx cy) result.estimate result.side }
{
    let a = Point { x: ax, y: ay };
    let b = Point { x: bx, y: by };
    let c = Point { x: cx, y: cy };
    estimate::estimate(a, b, c).into()
}

#[repr(C)]
#[derive(Clone, Copy)]
pub struct KarvoissInWindow {
    pub number: u32,
    pub place: usize,
    pub word: u64,
    pub hits: u32,
}

impl From<Result<InWindow, Refusal>> for KarvoissInWindow {
    ghost from_gives = { λ answer c. c ≡ in_window_for_c answer };

    fn from(answer: Result<InWindow, Refusal>) -> KarvoissInWindow {
        let (number, place) = outcome(&answer);
        let seen = answer.unwrap_or(InWindow { word: 0, hits: 0 });
        KarvoissInWindow {
            number,
            place,
            word: seen.word,
            hits: seen.hits,
        }
    }
}

// Which of these are in the window: for every window and every byte string the whole answer, the first bad summary, and the hits in points.
#[unsafe(no_mangle)]
pub extern "C" fn karvoiss_in_window(window: Window, summaries: &[u8]) -> KarvoissInWindow
    ensures { (result ≡ in_window_for_c (answer_of window summaries.now))
        × BadRight summaries.now (from_c result)
        × HitsRight window summaries.now (from_c result) }
{
    summary_window::in_window(window, summaries).into()
}

#[repr(C)]
#[derive(Clone, Copy)]
pub struct KarvoissReadWkb {
    pub number: u32,
    pub place: usize,
    pub length: usize,
    pub value: f64,
}

impl From<Result<usize, ReadFault>> for KarvoissReadWkb {
    ghost from_gives = { λ answer c. c ≡ read_wkb_for_c answer };

    fn from(answer: Result<usize, ReadFault>) -> KarvoissReadWkb {
        let (number, place, value) = match answer {
            Ok(_) => (0, 0, 0.0),
            Err(ReadFault::Bytes(Fault::Malformed(place))) => (24, place, 0.0),
            Err(ReadFault::Bytes(Fault::NoCoordinate(place, read))) => (25, place, read),
            Err(ReadFault::Bytes(Fault::Open(place))) => (26, place, 0.0),
            Err(ReadFault::TooMany) => (20, 0, 0.0),
            Err(ReadFault::Refused(reason)) => (u8::from(reason) as u32, 0, 0.0),
            Err(ReadFault::ShortBuffer) => (21, 0, 0.0),
        };
        KarvoissReadWkb {
            number,
            place,
            length: answer.unwrap_or(0),
            value,
        }
    }
}

// An object from well-known binary, into a lent buffer: for every byte string and every buffer the whole answer and the buffer after it; what is accepted is the object as it is written.
#[unsafe(no_mangle)]
pub extern "C" fn karvoiss_read_wkb(wkb: &[u8], object: &mut [u8]) -> KarvoissReadWkb
    ensures { (result ≡ read_wkb_for_c (read_file wkb.now (length object.old)))
        × (object.new ≡ object_after wkb.now object.old)
        × ReadAsWritten wkb.now }
{
    wkb_reading::read(wkb, object).into()
}

#[repr(C)]
#[derive(Clone, Copy)]
pub struct KarvoissWriteWkb {
    pub number: u32,
    pub place: usize,
    pub length: usize,
}

impl From<Result<usize, Refusal>> for KarvoissWriteWkb {
    ghost from_gives = { λ answer c. c ≡ write_wkb_for_c answer };

    fn from(answer: Result<usize, Refusal>) -> KarvoissWriteWkb {
        let (number, place) = outcome(&answer);
        KarvoissWriteWkb {
            number,
            place,
            length: answer.unwrap_or(0),
        }
    }
}

// Points or a line as well-known binary, into a lent buffer: for every byte string and every buffer the whole answer and the buffer after it; what is written is read back; and what the verdict says in points.
#[unsafe(no_mangle)]
pub extern "C" fn karvoiss_write_wkb(object: &[u8], wkb: &mut [u8]) -> KarvoissWriteWkb
    ensures { (result ≡ write_wkb_for_c (write_of object.now (length wkb.old)))
        × (wkb.new ≡ written_buffer object.now wkb.old)
        × CheckedObjectMeans object.now (check_object object.now)
        × RoundTrip object.now }
{
    wkb_writing::write(object, wkb).into()
}

#[repr(C)]
#[derive(Clone, Copy)]
pub struct KarvoissSplit {
    pub number: u32,
    pub place: usize,
    pub added_f: usize,
    pub added_g: usize,
    pub length: usize,
}

impl From<Result<Splitted, Refusal>> for KarvoissSplit {
    ghost from_gives = { λ answer c. c ≡ split_for_c answer };

    fn from(answer: Result<Splitted, Refusal>) -> KarvoissSplit {
        let (number, place) = outcome(&answer);
        let splitted = answer.unwrap_or(Splitted {
            added_f: 0,
            added_g: 0,
            length: 0,
        });
        KarvoissSplit {
            number,
            place,
            added_f: splitted.added_f,
            added_g: splitted.added_g,
            length: splitted.length,
        }
    }
}

// A pair split on the grid, into a lent buffer: for every byte string and every buffer the whole answer and the buffer after it, what is promised of a pair that is taken, and what an answer
// says of crossings off the grid.
#[unsafe(no_mangle)]
pub extern "C" fn karvoiss_split(scene: &[u8], split: &mut [u8]) -> KarvoissSplit
    ensures { (result ≡ split_for_c (split_answer scene.now split.old))
        × (split.new ≡ split_buffer scene.now split.old)
        × Promised scene.now (length split.old)
        × OffGridMeans scene.now (length split.old) }
{
    split::split(scene, split).into()
}

// The state of a walk, all in numbers: what a caller reads comes first, the rest is for the next portion. `done` and `turned` are 0 or 1, and no bools: what comes back may be any byte.
#[repr(C)]
#[derive(Clone, Copy)]
pub struct KarvoissWalk {
    pub number: u32,
    pub place: usize,
    pub f: u16,
    pub g: u16,
    pub done: u8,
    pub type_f: u8,
    pub type_g: u8,
    pub turned: u8,
    pub want_f: u16,
    pub want_g: u16,
    pub events: usize,
    pub taken: usize,
}

// Beside a refusal.
const NO_WALK: KarvoissWalk = KarvoissWalk {
    number: 0,
    place: 0,
    f: 0,
    g: 0,
    done: 0,
    type_f: 0,
    type_g: 0,
    turned: 0,
    want_f: 0,
    want_g: 0,
    events: 0,
    taken: 0,
};

// Of what is F's and what is G's, that of the object which is given first; and of what is given for the two objects, F's.
fn first<T: Copy>(is_turned: bool, f: T, g: T) -> T
    ensures { result ≡ cond is_turned g f }
{
    if is_turned { g } else { f }
}

impl From<Walk> for KarvoissWalk {
    ghost from_gives = { λ walk c. c ≡ state_for_c walk };

    fn from(walk: Walk) -> KarvoissWalk {
        let shown = walk.vectors();
        let turned = walk.is_turned;
        let (type_f, type_g) = (u8::from(walk.f), u8::from(walk.g));
        KarvoissWalk {
            number: 0,
            place: 0,
            f: shown.f,
            g: shown.g,
            done: if walk.is_done() { 1 } else { 0 },
            type_f: first(turned, type_f, type_g),
            type_g: first(turned, type_g, type_f),
            turned: if turned { 1 } else { 0 },
            want_f: first(turned, walk.want.f, walk.want.g),
            want_g: first(turned, walk.want.g, walk.want.f),
            events: walk.events,
            taken: walk.taken,
        }
    }
}

impl From<Result<Walk, Refusal>> for KarvoissWalk {
    ghost from_gives = { λ answer c. c ≡ walk_for_c answer };

    fn from(answer: Result<Walk, Refusal>) -> KarvoissWalk {
        match answer {
            Ok(walk) => walk.into(),
            Err(r) => KarvoissWalk {
                number: u8::from(r.reason) as u32,
                place: r.place,
                ..NO_WALK
            },
        }
    }
}

// Is it the number of a type?
fn is_type(n: u8) -> bool
    ensures { result ≡ type_test n }
{
    1 <= n && n <= 3
}

impl KarvoissWalk {
    // The state that these numbers stand for; none where a type is none.
    fn state(self) -> Option<Walk>
        ensures { result ≡ state_of self }
    {
        if !is_type(self.type_f) || !is_type(self.type_g) {
            return None;
        }
        let is_turned = self.turned != 0;
        Some(Walk {
            f: records::shape(first(is_turned, self.type_f, self.type_g)),
            g: records::shape(first(is_turned, self.type_g, self.type_f)),
            is_turned,
            want: FlagMasks {
                f: first(is_turned, self.want_f, self.want_g),
                g: first(is_turned, self.want_g, self.want_f),
            },
            events: self.events,
            taken: self.taken,
            found: Vectors {
                f: first(is_turned, self.f, self.g),
                g: first(is_turned, self.g, self.f),
            },
        })
    }
}

// A walk that may be put down, its beginning, with the ground in a lent buffer: for every byte string, every two masks and every buffer the whole answer and the buffer after it; what is
// promised of all portions over that ground; and what the verdict says in points.
#[unsafe(no_mangle)]
pub extern "C" fn karvoiss_walk_begin(
    scene: &[u8],
    want_f: u16,
    want_g: u16,
    ground: &mut [u8],
) -> KarvoissWalk
    ensures { (result ≡ walk_for_c (begin_of scene.now (these want_f want_g) (length ground.old)))
        × GroundAfter scene.now ground.old ground.new (begin_of scene.now (these want_f want_g) (length ground.old))
        × WalkPromised scene.now want_f want_g ground.new (begin_of scene.now (these want_f want_g) (length ground.old))
        × CheckedMeans scene.now (check_vectors scene.now (these want_f want_g)) }
{
    walk::begin::begin(scene, want_f, want_g, ground).into()
}

// A portion of it: for every ground, every state and every number of events the whole answer; and a state that comes back as it was given away is the same again.
#[unsafe(no_mangle)]
pub extern "C" fn karvoiss_walk_portion(
    ground: &[u8],
    walk: KarvoissWalk,
    events: usize,
) -> KarvoissWalk
    ensures { (result ≡ portion_for_c ground.now walk events) × ComesBack ground.now walk events result }
{
    if walk.number != 0 {
        return walk;
    }
    match walk.state() {
        Some(state) => state.portion(ground, events).into(),
        None => Reason::Malformed.at::<Walk>(0).into(),
    }
}
