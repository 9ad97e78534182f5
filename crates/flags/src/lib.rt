// Flags as the bits of a number: the vector of a list of flags, and the marks that a walk collects.
#![tactic(auto)]

ghost use Rattle.std.specs.Prelude.{◌≡◌, ◌<◌, ◌≤◌, ◌^◌, not, eqb};
ghost use Rattle.std.specs.Int.Bits.{bit_and, bit_or};
ghost use Rattle.flags.specs.Flags.{pack, has_bit};

// The vector of some flags, bit 0 first.
// Kept as a loop: that each sum fits is told by its invariant, and the closure of a fold would have to ask for it.
pub fn packed<const N: usize>(flags: [bool; N]) -> u16
    requires { N ≤ 16 }
    ensures { (result ≡ pack flags.entry) × (result < 2 ^ N) }
{
    let mut vector: u16 = 0;
    for k in (0..N).rev() {
        vector = 2 * vector + flags[k] as u16;
    }
    vector
}

// Is bit k of a vector set? A set of cells is such a number too.
pub fn has_bit(v: u16, k: usize) -> bool
    requires { k < 16 }
    ensures { result ≡ has_bit v k }
{
    v >> k & 1 == 1
}

// A set of marks, a bit of a number for each.
// Kept as bits, and no struct of bools: a walk joins the marks of each step to those so far, whichever they are.
#[derive(Clone, Copy)]
pub struct MarkSet(pub u16);

impl MarkSet {
    pub const NONE: MarkSet = MarkSet(0);

    pub fn with(self, more: MarkSet) -> MarkSet
        ensures { result.0 ≡ bit_or self.0 more.0 }
    {
        MarkSet(self.0 | more.0)
    }

    pub fn has(self, mark: MarkSet) -> bool
        ensures { result ≡ not (eqb (bit_and self.0 mark.0) 0) }
    {
        self.0 & mark.0 != 0
    }
}
