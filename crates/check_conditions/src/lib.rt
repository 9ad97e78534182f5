// The conditions 10 to 15 as tests of one element, and the earliest element at fault under each. A file for each condition:
// order 10, partners 11, touch 12 and 15, ends 13, interior 14.
#![tactic(auto)]

ghost use Rattle.std.specs.Prelude.{ℕ, ◌≡◌, ◌<◌};
ghost use Rattle.scene.specs.Read.{flaw_of};
ghost use Rattle.check_conditions.specs.Faults.{is_at_fault, fault_under, fault_by};

use scene::Flaw;
use scene_segments::Pair;

pub mod ends;
pub mod interior;
pub mod order;
pub mod partners;
pub mod touch;

// Kept as a match, and no closure for each flaw: which test is asked is what the flaw says, and the contract says it so.
fn is_at_fault(pair: Pair<'_>, flaw: Flaw, i: usize) -> bool
    requires { i < pair.own.count }
    ensures { result ≡ is_at_fault pair.entry.bytes.now pair.entry.own pair.entry.other flaw i }
{
    match flaw {
        Flaw::Misplaced => order::is_misplaced(pair.own(), i),
        Flaw::Unpaired => partners::is_unpaired(pair.own(), i),
        Flaw::Touching => touch::is_touching(pair.own().with_itself(), i + 1, i),
        Flaw::OddEnd => ends::ends_oddly(pair.own(), i),
        Flaw::WrongIa => interior::has_wrong_ia(pair.own(), i),
        Flaw::TouchingAcross => touch::is_touching(pair, 0, i),
    }
}

// The earliest record of an object that has a flaw. For `TouchingAcross`, the other one is the scene's other object.
fn earliest_under(pair: Pair<'_>, flaw: Flaw) -> Option<usize>
    ensures { result ≡ fault_under pair.entry.bytes.now pair.entry.own pair.entry.other flaw }
{
    for i in 0..pair.own.count {
        if is_at_fault(pair, flaw, i) {
            return Some(pair.own().place(i));
        }
    }
    None
}

// The same; and of the flaw that a number stands for, that of the number.
pub fn fault_under(pair: Pair<'_>, flaw: Flaw) -> Option<usize>
    ensures is { result ≡ fault_under pair.entry.bytes.now pair.entry.own pair.entry.other flaw }
    ensures of_number { (n : ℕ) → flaw ≡ flaw_of n → result ≡ fault_by pair.entry.bytes.now pair.entry.own pair.entry.other n }
{
    earliest_under(pair, flaw)
}
