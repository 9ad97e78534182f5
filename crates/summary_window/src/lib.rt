// Which of these are in the window (document 02, Paper 11): a window of four single floats, up to 64 summaries one after the other, and the word whose bit k says
// that summary k shares a point with the window.
#![tactic(auto)]

ghost use Rattle.std.specs.Prelude.{◌≡◌, ◌≤◌, ◌&&◌, not, T, length};
ghost use Rattle.std.specs.Float.{binary32};
ghost use Rattle.floats.specs.Value.{counted};
ghost use Rattle.summary.specs.Summary.{good_box, is_good};
ghost use Rattle.summary_window.specs.Window.{is_range, is_window, shares_of, meets, judged, answer_of, window_values, BadRight, HitsRight};

use scene::{Reason, Refusal};
use summary::{Bounds, Summary};

#[repr(C)]
#[derive(Clone, Copy)]
pub struct Window {
    pub least_x: f32,
    pub least_y: f32,
    pub greatest_x: f32,
    pub greatest_y: f32,
}

// The word, and how many of its bits are set.
#[derive(Clone, Copy)]
pub struct InWindow {
    pub word: u64,
    pub hits: u32,
}

// Two finite numbers, the first not above the second?
#[tactic(auto, using(crate::proofs::Finite::finite_is), unfolding(crate::specs::Window::is_range))]
fn is_range(least: f32, greatest: f32) -> bool
    ensures { result ≡ is_range least greatest }
{
    least.is_finite() && (greatest.is_finite() && least <= greatest)
}

// Do the stretch from `least` to `greatest` and that from `low` to `high` share a number?
#[tactic(auto, unfolding(crate::specs::Window::shares_of))]
fn shares(least: f32, greatest: f32, low: i32, high: i32) -> bool
    requires { T (counted binary32 low) × T (counted binary32 high) }
    ensures { result ≡ shares_of least greatest low high }
{
    least <= high as f32 && low as f32 <= greatest
}

impl Window {
    #[tactic(auto, unfolding(crate::specs::Window::is_window))]
    fn is_good(self) -> bool
        ensures { result ≡ is_window self }
    {
        is_range(self.least_x, self.greatest_x) && is_range(self.least_y, self.greatest_y)
    }

    // Does a box share a point with the window, edges included?
    fn meets(self, b: Bounds) -> bool
        requires { T (good_box b) }
        ensures { result ≡ meets self b }
    {
        shares(self.least_x, self.greatest_x, b.least.x, b.greatest.x)
            && shares(self.least_y, self.greatest_y, b.least.y, b.greatest.y)
    }

    // Is a summary not empty, and shares its box a point with the window?
    fn shows(self, s: Summary) -> bool
        requires { T (is_good s) }
        ensures { result ≡ (not s.empty && meets self s.bounds) }
    {
        !s.empty && self.meets(s.bounds)
    }
}

// Of no more than 64 summaries: the word and its ones, or 18 at the first that is bad, a cut one being bad.
fn judge(w: Window, s: &[u8]) -> Result<InWindow, Refusal>
    requires { length s.now ≤ 1280 }
    ensures { result ≡ judged w s.now }
{
    let mut word = 0u64;
    for (k, record) in s.chunks(20).enumerate() {
        let Some(summary) = summary_record::parse(record) else {
            return Reason::BadSummary.at(k);
        };
        word += (w.shows(summary) as u64) << k;
    }
    Ok(InWindow {
        word,
        hits: word.count_ones(),
    })
}

// Kept apart from `in_window`: what the answer says in points is shown of the whole answer there, and not at each return here.
#[tactic(auto, unfolding(crate::specs::Window::answer_of))]
fn answer(w: Window, s: &[u8]) -> Result<InWindow, Refusal>
    ensures { result ≡ answer_of w s.now }
{
    if !w.is_good() {
        return Reason::BadWindow.at(0);
    }
    if s.len() > 1280 {
        return Reason::TooManySummaries.at(0);
    }
    judge(w, s)
}

// Which of the summaries share a point with the window: for every window and every byte string the whole answer, and what it says in points.
pub fn in_window(w: Window, s: &[u8]) -> Result<InWindow, Refusal>
    ensures { (result ≡ answer_of w s.now) × BadRight s.now (window_values result) × HitsRight w s.now (window_values result) }
{
    answer(w, s)
}
