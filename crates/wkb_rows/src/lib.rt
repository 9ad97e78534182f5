// Rows of different keys that rise, with room for a fixed number. Keys go in one by one, and one that is there already does not go in again; so a row is
// never longer than what is different in the input, however long that is.
#![tactic(auto)]

ghost use Rattle.std.specs.Prelude.{◌≡◌, ◌<◌, ◌≤◌, [], length, MatchResult, OnOk, OnErr};
ghost use Rattle.scene_written.specs.Arranged.{insert};
ghost use Rattle.wkb_rows.specs.Rows.{is_below, Rises, GoesTo};

use arrayvec::{ArrayVec, CapacityError};
use std::marker::Model;

/// At most `ROOM` keys. Clauses see them, in order.
#[derive(Drop)]
pub struct OrderedRow<K: Ord + Copy + Default, const ROOM: usize> {
    keys: ArrayVec<K, ROOM>,
}

impl<K: Ord + Copy + Default, const ROOM: usize> Model for OrderedRow<K, ROOM> {
    ghost use Rattle.std.specs.Prelude.{List};
    ghost use Rattle.wkb_rows.specs.Rows.{Rises};

    ghost Value = { List K };

    ghost view = { λ a. a.keys.items };

    ghost invariant = { λ a. Rises K.cmp a.keys.items };
}

impl<K: Ord + Copy + Default, const ROOM: usize> OrderedRow<K, ROOM> {
    pub fn new() -> Self
        ensures { result ≡ [] }
    {
        OrderedRow {
            keys: ArrayVec::new(),
        }
    }

    pub fn keys(&self) -> &[K]
        ensures same { result.now ≡ self.now }
        ensures few { length result.now ≤ ROOM }
        ensures rising { Rises K.cmp result.now }
    {
        self.keys.as_slice()
    }

    // Where a key is, or where it would go. With a look at the last one first: where keys come in order, none is searched for.
    fn find(&self, key: &K) -> Result<usize, usize>
        ensures { MatchResult result (λ _. insert (is_below K.cmp) key.now self.now ≡ self.now) (GoesTo K.cmp key.now self.now) }
    {
        let keys = self.keys.as_slice();
        match keys.last() {
            Some(last) if last.cmp(key).is_lt() => Err(keys.len()),
            _ => keys.binary_search(key),
        }
    }

    // A key into the row, or an error where it is another one than those there and they fill the row.
    pub fn put(&mut self, key: K) -> Result<(), CapacityError<K>>
        ensures put { OnOk result (self.new ≡ insert (is_below K.cmp) key self.old) }
        ensures full { OnErr result (ROOM < length (insert (is_below K.cmp) key self.old)) }
        ensures unchanged { OnErr result (self.new ≡ self.old) }
    {
        match self.find(&key) {
            Ok(_) => Ok(()),
            Err(place) => rows::try_insert(&mut self.keys, place, key),
        }
    }
}
