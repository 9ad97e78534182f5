// The order of a scene's two objects: F's type is never above G's, and the bytes may have them the other way round.
ghost use Rattle.std.specs.Prelude.{◌≡◌, cond};
ghost use Rattle.scene.specs.Read.{arranged, turned, as_given, given_first, given_second};

use crate::{Layout, Scene};

impl Scene {
    // Of two objects as the bytes have them.
    pub fn arranged(a: Layout, b: Layout) -> Scene
        ensures { result ≡ arranged a b }
    {
        if b.shape < a.shape {
            Scene { f: b, g: a }
        } else {
            Scene { f: a, g: b }
        }
    }

    // Do the bytes have G first?
    pub fn is_turned(self) -> bool
        ensures { result ≡ turned self }
    {
        self.g.start < self.f.start
    }

    // Of what is F's and what is G's, that of the object which the bytes have first; and of what the caller gives for the two objects in his order, F's.
    pub fn as_given<T: Copy>(self, f: T, g: T) -> T
        ensures { result ≡ as_given self f g }
    {
        if self.is_turned() { g } else { f }
    }

    // The object that the bytes have first, and the one that they have second.
    pub fn given_first(self) -> Layout
        ensures { result ≡ given_first self }
    {
        self.as_given(self.f, self.g)
    }

    pub fn given_second(self) -> Layout
        ensures { result ≡ given_second self }
    {
        self.as_given(self.g, self.f)
    }

    // F, or G.
    // Kept as a yes or no, here and wherever an object is asked for by it: the definitions have it so (`cond first`), and an enum of two would say no more.
    pub fn object(self, first: bool) -> Layout
        ensures { result ≡ cond first self.f self.g }
    {
        if first { self.f } else { self.g }
    }
}
