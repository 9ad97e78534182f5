// The status of the sweep: the active segments from low to high, as the offsets of their records. One goes in or out at a place, and those above it move.
#![tactic(auto)]

ghost use Rattle.std.specs.Prelude.{◌≡◌, ◌↔◌, ◌<◌, ◌≤◌, [], eqb, length, IsTrue};
ghost use Rattle.sweep_laws.specs.Status.{inserted, removed};

use arrayvec::ArrayVec;
use std::marker::Model;

pub mod note;
pub mod owner;
pub mod place;

/// At most `ROOM` entries. Clauses see them, from low to high. `near` is a place where the next event may well be.
#[derive(Drop)]
pub struct Status<const ROOM: usize> {
    entries: ArrayVec<u16, ROOM>,
    near: usize,
}

impl<const ROOM: usize> Model for Status<ROOM> {
    ghost use Rattle.std.specs.Prelude.{List, ℕ};

    ghost Value = { List ℕ };

    ghost view = { λ a. a.entries.items };
}

impl<const ROOM: usize> Status<ROOM> {
    #[inline]
    pub fn new() -> Self
        ensures { result ≡ [] }
    {
        Status {
            entries: ArrayVec::new(),
            near: 0,
        }
    }

    pub fn entries(&self) -> &[u16]
        ensures { result.now ≡ self.now }
    {
        self.entries.as_slice()
    }

    pub fn is_full(&self) -> bool
        ensures full { IsTrue result ↔ (length self.now ≡ ROOM) }
        ensures within { length self.now ≤ ROOM }
    {
        self.entries.is_full()
    }

    pub fn is_empty(&self) -> bool
        ensures { result ≡ eqb (length self.now) 0 }
    {
        self.entries.is_empty()
    }

    // Only where to look first: every place is right.
    pub fn near(&self) -> usize {
        self.near
    }

    // A new entry at place k: those from k on move up by one. Where several segments begin at a point, the next one is just above it.
    pub fn insert(&mut self, k: usize, at: u16)
        requires { (k ≤ length self.old) × (length self.old < ROOM) }
        ensures { self.new ≡ inserted k at self.old }
    {
        rows::insert(&mut self.entries, k, at);
        self.near = k + 1;
    }

    // The entry at place k goes: those above it move down by one.
    pub fn remove(&mut self, k: usize)
        requires { k < length self.old }
        ensures { self.new ≡ removed k self.old }
    {
        rows::remove(&mut self.entries, k);
        self.near = k;
    }
}
