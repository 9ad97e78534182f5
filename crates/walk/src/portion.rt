// A portion of a walk, and what its state says.
ghost use Rattle.std.specs.Prelude.{◌≡◌, ◌*◌, ◌≤◌, length};
ghost use Rattle.walk.specs.Walked.{shown, done, portion_of, marks_of_f, marks_of_g};

use crate::{MOST, Walk};
use flags_vectors::Vectors;
use scene::{Reason, Refusal};
use walk_flags::{Asked, Marks};

// The marks of F and of G.
#[derive(Clone, Copy)]
struct BothMarks {
    f: Marks,
    g: Marks,
}

// Those of the events from one up to another, put together.
fn marks_in(ground: &[u8], from: usize, to: usize) -> BothMarks
    requires { (from ≤ to) × (4 * to ≤ length ground.now) }
    ensures { (result.f ≡ marks_of_f ground.now from to) × (result.g ≡ marks_of_g ground.now from to) }
{
    let mut f = Marks::NONE;
    let mut g = Marks::NONE;
    for n in from..to {
        f = f.with(Marks {
            met: ground[4 * n],
            classes: ground[4 * n + 1],
        });
        g = g.with(Marks {
            met: ground[4 * n + 2],
            classes: ground[4 * n + 3],
        });
    }
    BothMarks { f, g }
}

impl Walk {
    fn asked(self) -> Asked
        ensures { result ≡ record { f = self.f; g = self.g; want = self.want } }
    {
        Asked {
            f: self.f,
            g: self.g,
            want: self.want,
        }
    }

    // Takes n events, or all that remain.
    pub fn portion(self, ground: &[u8], n: usize) -> Result<Walk, Refusal>
        ensures { result ≡ portion_of ground.now self n }
    {
        if self.events > MOST || 4 * self.events > ground.len() || self.taken > self.events {
            return Reason::Malformed.at(0);
        }
        let taken = self.taken + n.min(self.events - self.taken);
        let marks = marks_in(ground, self.taken, taken);
        let asked = self.asked();
        let found = Vectors {
            f: self.found.f | asked.of_f(marks.f),
            g: self.found.g | asked.of_g(marks.g),
        };
        Ok(Walk {
            taken,
            found,
            ..self
        })
    }

    // The wanted flags that are set, in the caller's order.
    pub fn vectors(self) -> Vectors
        ensures { result ≡ shown self }
    {
        if self.is_turned {
            Vectors {
                f: self.found.g,
                g: self.found.f,
            }
        } else {
            self.found
        }
    }

    // Does no event remain?
    pub fn is_done(self) -> bool
        ensures { result ≡ done self }
    {
        self.taken == self.events
    }
}
