// A value into a row at a place, one out of it, and a row laid into another: as `ArrayVec` and slices have them, but that each value is moved with the next one in hand.
// So the compiler moves several at once, and the C library is not asked for `memmove`, as it is where a row may be copied onto itself.
#![tactic(auto)]

ghost use Rattle.std.specs.Prelude.{◌≡◌, ◌↔◌, [], ◌∷◌, ◌++◌, ◌+◌, ◌<◌, ◌≤◌, length, take, drop, insert, remove, IsOk, OnOk, OnErr, IfErr};
ghost use Rattle.arrayvec.specs.ArrayVec.{array_vec_len};
ghost use Rattle.arrayvec.specs.CapacityError.{error_element};

use arrayvec::{ArrayVec, CapacityError};
use std::mem;

// A value goes in at place k. Those from k on move up by one, and the last falls out.
fn raise<T: Copy>(row: &mut [T], k: usize, value: T) -> T
    requires { k ≤ length row.old }
    ensures { row.new ++ result ∷ [] ≡ take k row.old ++ value ∷ drop k row.old }
{
    let mut held = value;
    for i in k..row.len() {
        held = mem::replace(&mut row[i], held);
    }
    held
}

// The one at place k falls out. Those above it move down by one, and a value goes in at the top.
fn lower<T: Copy>(row: &mut [T], k: usize, value: T)
    requires { k < length row.old }
    ensures { row.new ≡ take k row.old ++ drop (k + 1) row.old ++ value ∷ [] }
{
    let mut held = value;
    for i in (k..row.len()).rev() {
        held = mem::replace(&mut row[i], held);
    }
}

pub fn insert<T: Copy, const ROOM: usize>(row: &mut ArrayVec<T, ROOM>, k: usize, value: T)
    requires in_bounds { k ≤ array_vec_len row.old }
    requires room { array_vec_len row.old < ROOM }
    ensures items { row.new.items ≡ insert row.old.items k value }
    ensures len { array_vec_len row.new ≡ array_vec_len row.old + 1 }
{
    let last = raise(row.as_mut_slice(), k, value);
    row.push(last);
}

// Or it is handed back where the row is full.
pub fn try_insert<T: Copy, const ROOM: usize>(
    row: &mut ArrayVec<T, ROOM>,
    k: usize,
    value: T,
) -> Result<(), CapacityError<T>>
    requires { k ≤ array_vec_len row.old }
    ensures variant { IsOk result ↔ (array_vec_len row.old < ROOM) }
    ensures ok { OnOk result (row.new.items ≡ insert row.old.items k value) }
    ensures len { OnOk result (array_vec_len row.new ≡ array_vec_len row.old + 1) }
    ensures err { OnErr result (row.new ≡ row.old) }
    ensures full { OnErr result (array_vec_len row.old ≡ ROOM) }
    ensures value_returned { IfErr result (λ e. error_element e ≡ value) }
{
    if row.is_full() {
        return Err(CapacityError::new(value));
    }
    insert(row, k, value);
    Ok(())
}

pub fn remove<T: Copy + Default, const ROOM: usize>(row: &mut ArrayVec<T, ROOM>, k: usize)
    requires { k < array_vec_len row.old }
    ensures items { row.new.items ≡ remove row.old.items k }
    ensures len { array_vec_len row.new + 1 ≡ array_vec_len row.old }
{
    let value = row.as_slice()[k];
    lower(row.as_mut_slice(), k, value);
    let _ = row.pop();
}

// A row over the first values of another, which has room for it.
pub fn lay<T: Copy>(values: &[T], row: &mut [T])
    requires { length values.now ≤ length row.old }
    ensures { row.new ≡ values.now ++ drop (length values.now) row.old }
{
    let n = values.len();
    if n == 0 {
        return;
    }
    let mut held = values[0];
    for i in 1..n {
        row[i - 1] = held;
        held = values[i];
    }
    row[n - 1] = held;
}
