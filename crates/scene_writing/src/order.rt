// The halves of segments in order.
ghost use Rattle.std.specs.Prelude.{ℕ, ◌≡◌, T, ◌+◌, ◌*◌, ◌<◌, ◌≤◌, length, get_or};
ghost use Rattle.plane.specs.Plane.{dominating};
ghost use Rattle.scene_keys.specs.Keyed.{key, IsKey};
ghost use Rattle.arrayvec.specs.ArrayVec.{array_vec_len};
ghost use Rattle.scene_writing.specs.Rows.{AreGood};
ghost use Rattle.scene_writing.specs.Settled.{Stops, Between, sink};
ghost use Rattle.scene_writing.specs.Named.{half_in, earlier_in, AreHalves, AreRising, no_half, IsSettled};

use arrayvec::ArrayVec;
use plane::Halfsegment;
use scene_keys::{Ends, ROOM};

/// A half of a segment in a row.
#[derive(Clone, Copy, Default)]
pub struct Half {
    pub index: u16,
    pub is_left: bool,
}

/// At most 512 segments as a row of keys.
#[derive(Clone, Copy)]
pub struct Row<'a> {
    pub ends: &'a [Ends],
    pub ghost few: { length ends.now ≤ 512 },
    pub ghost good: { AreGood ends.now },
}

impl<'a> Row<'a> {
    pub fn half(self, h: Half) -> Halfsegment
        requires { h.index < length self.ends.now }
        ensures { result ≡ half_in self.entry.ends.now h }
    {
        Halfsegment {
            segment: self.ends[h.index as usize].segment(),
            is_left: h.is_left,
        }
    }

    // The key of its dominating point.
    pub fn key(self, h: Half) -> u64
        requires { h.index < length self.ends.now }
        ensures { result ≡ key (dominating (half_in self.entry.ends.now h)) }
    {
        let ends = self.ends[h.index as usize];
        if h.is_left { ends.left } else { ends.right }
    }

    // Does the one come before the other? By the keys of their dominating points, and only if these are equal by more.
    #[inline(always)]
    fn is_earlier(self, h: Half, other: Half) -> bool
        requires h_in { h.index < length self.ends.now }
        requires other_in { other.index < length self.ends.now }
        ensures { result ≡ earlier_in self.entry.ends.now h other }
    {
        let p = self.key(h);
        let q = self.key(other);
        if p != q {
            return p < q;
        }
        self.is_earlier_there(h, other)
    }

    // The same in full.
    #[inline(never)]
    fn is_earlier_there(self, h: Half, other: Half) -> bool
        requires h_in { h.index < length self.ends.now }
        requires other_in { other.index < length self.ends.now }
        ensures { result ≡ earlier_in self.entry.ends.now h other }
    {
        plane_segments::comes_before(self.half(h), self.half(other))
    }
}

// ---- how many of those in order stay before a half: up to the last that it does not come before

// Where they rise, by halving: from low to high.
fn halve(row: Row<'_>, order: &[Half], h: Half, from: usize, to: usize) -> usize
    requires h_in { h.index < length row.ends.now }
    requires order_in { AreHalves row.ends.now order.now }
    requires between { Between (earlier_in row.ends.now) no_half h order.now from to }
    ensures { Between (earlier_in row.entry.ends.now) no_half h order.now result result }
{
    let mut low = from;
    let mut high = to;
    while low < high {
        let middle = low + (high - low) / 2;
        if row.is_earlier(h, order[middle]) {
            high = middle;
        } else {
            low = middle + 1;
        }
    }
    high
}

// Looked for from the back in growing steps first: most halves pass only a few.
fn search(row: Row<'_>, order: &[Half], h: Half) -> usize
    requires h_in { h.index < length row.ends.now }
    requires order_in { AreHalves row.ends.now order.now }
    requires few { length order.now ≤ 1024 }
    ensures { Between (earlier_in row.entry.ends.now) no_half h order.now result result }
{
    let mut high = order.len();
    let mut step = 1;
    while step <= high {
        let k = high - step;
        if !row.is_earlier(h, order[k]) {
            return halve(row, order, h, k + 1, high);
        }
        high = k;
        step *= 2;
    }
    halve(row, order, h, 0, high)
}

// Where they do not, one by one.
fn scan(row: Row<'_>, order: &[Half], h: Half) -> usize
    requires h_in { h.index < length row.ends.now }
    requires order_in { AreHalves row.ends.now order.now }
    ensures { Stops (earlier_in row.entry.ends.now) no_half h order.now result }
{
    for k in (0..order.len()).rev() {
        if !row.is_earlier(h, order[k]) {
            return k + 1;
        }
    }
    0
}

fn place(row: Row<'_>, order: &[Half], rises: bool, h: Half) -> usize
    requires h_in { h.index < length row.ends.now }
    requires order_in { AreHalves row.ends.now order.now }
    requires few { length order.now ≤ 1024 }
    requires rising { T rises → AreRising row.ends.now order.now }
    ensures { Stops (earlier_in row.entry.ends.now) no_half h order.now result }
{
    if rises {
        search(row, order, h)
    } else {
        scan(row, order, h)
    }
}

// Does the one before a place come before a half?
fn follows(row: Row<'_>, order: &[Half], k: usize, h: Half) -> bool
    requires h_in { h.index < length row.ends.now }
    requires order_in { AreHalves row.ends.now order.now }
    requires within { k ≤ length order.now }
    ensures { (i : ℕ) → i + 1 ≡ k → result ≡ earlier_in row.entry.ends.now (get_or order.now i no_half) h }
{
    k == 0 || row.is_earlier(order[k - 1], h)
}

// A half goes in. Do they still rise, if they did?
fn sink(row: Row<'_>, order: &mut ArrayVec<Half, 1024>, rises: bool, h: Half) -> bool
    requires h_in { h.index < length row.ends.now }
    requires order_in { AreHalves row.ends.now order.old.items }
    requires room { array_vec_len order.old < 1024 }
    requires rising { T rises → AreRising row.ends.now order.old.items }
    ensures sunk { order.new.items ≡ sink (earlier_in row.entry.ends.now) h order.old.items }
    ensures still_in { AreHalves row.entry.ends.now order.new.items }
    ensures one_more { array_vec_len order.new ≡ array_vec_len order.old + 1 }
    ensures still_rising { T result → AreRising row.entry.ends.now order.new.items }
{
    let k = place(row, order.as_slice(), rises, h);
    let still = rises && follows(row, order.as_slice(), k, h);
    rows::insert(order, k, h);
    still
}

// The halves of all the segments, in order: one after the other, as the segments come.
fn one_by_one(row: Row<'_>) -> ArrayVec<Half, 1024>
    ensures { IsSettled row.entry.ends.now result.items }
{
    let mut order = ArrayVec::new();
    let mut rises = true;
    for index in 0..row.ends.len() as u16 {
        rises = sink(
            row,
            &mut order,
            rises,
            Half {
                index,
                is_left: true,
            },
        );
        rises = sink(
            row,
            &mut order,
            rises,
            Half {
                index,
                is_left: false,
            },
        );
    }
    order
}

// ---- the same by sorted numbers. Halves in strict order can be in no other, so no clause says how they come here.

// A half as a number, by the keys of its dominating point and of its other end: by point, right before left, then as it mostly goes around the point, by
// whether it rises or falls; and last its segment.
fn number(near: u64, far: u64, is_left: bool, index: usize) -> u64
    requires { IsKey near × (index < 512) }
{
    let is_second = (near % ROOM < far % ROOM) == is_left;
    (4 * near + 2 * is_left as u64 + is_second as u64) * 512 + index as u64
}

fn numbered(n: u64) -> Half
    ensures { result.index < 512 }
{
    Half {
        index: (n % 512) as u16,
        is_left: n / 1024 % 2 == 1,
    }
}

// The left halves. They come by their points; where two have one point, they change places.
fn lefts(row: Row<'_>) -> [u64; 512] {
    let mut all = [0; 512];
    for k in 0..row.ends.len() {
        let ends = row.ends[k];
        all[k] = number(ends.left, ends.right, true, k);
        if k != 0 && all[k] < all[k - 1] {
            all.swap(k - 1, k);
        }
    }
    all
}

// The right halves, sorted.
fn rights(row: Row<'_>) -> [u64; 512] {
    let mut all = [0; 512];
    for k in 0..row.ends.len() {
        let ends = row.ends[k];
        all[k] = number(ends.right, ends.left, false, k);
    }
    all[..row.ends.len()].sort_unstable();
    all
}

// The first n of both, one after the other as they rise.
fn merged(lefts: &[u64; 512], rights: &[u64; 512], n: usize) -> [u64; 1024]
    requires { n ≤ 512 }
{
    let mut all = [0; 1024];
    let mut i = 0;
    let mut j = 0;
    for k in 0..2 * n {
        if i < n && (n <= j || lefts[i] < rights[j]) {
            all[k] = lefts[i];
            i += 1;
        } else if j < n {
            all[k] = rights[j];
            j += 1;
        }
    }
    all
}

// A half behind the last one, or else where it goes. Do they still rise?
fn put(row: Row<'_>, order: &mut ArrayVec<Half, 1024>, h: Half) -> bool
    requires h_in { h.index < length row.ends.now }
    requires order_in { AreHalves row.ends.now order.old.items }
    requires room { array_vec_len order.old < 1024 }
    requires rising { AreRising row.ends.now order.old.items }
    ensures still_in { AreHalves row.entry.ends.now order.new.items }
    ensures one_more { array_vec_len order.new ≡ array_vec_len order.old + 1 }
    ensures still_rising { T result → AreRising row.entry.ends.now order.new.items }
{
    if follows(row, order.as_slice(), order.len(), h) {
        order.push(h);
        return true;
    }
    sink(row, order, true, h)
}

// Are they in strict order now?
fn by_numbers(row: Row<'_>, order: &mut ArrayVec<Half, 1024>) -> bool
    requires { array_vec_len order.old ≡ 0 }
    ensures { T result → IsSettled row.entry.ends.now order.new.items }
{
    let all = merged(&lefts(row), &rights(row), row.ends.len());
    for k in 0..2 * row.ends.len() {
        let h = numbered(all[k]);
        if row.ends.len() <= h.index as usize || !put(row, order, h) {
            return false;
        }
    }
    true
}

// The halves of all the segments, in order.
pub fn settled(row: Row<'_>) -> ArrayVec<Half, 1024>
    ensures { IsSettled row.entry.ends.now result.items }
{
    let mut order = ArrayVec::new();
    if by_numbers(row, &mut order) {
        return order;
    }
    one_by_one(row)
}
