// Good and bad summaries: range, order, the empty rule, and what each type asks of box and boundary byte.
ghost use Rattle.std.specs.Prelude.{◌≡◌};
ghost use Rattle.summary.specs.Summary.{is_flat, is_point, good_box, good_for, is_good};

use crate::{Bounds, Summary};
use scene::Shape;

impl Bounds {
    fn is_flat(self) -> bool
        ensures { result ≡ is_flat self }
    {
        self.least.x == self.greatest.x || self.least.y == self.greatest.y
    }

    fn is_point(self) -> bool
        ensures { result ≡ is_point self }
    {
        self.least == self.greatest
    }

    #[tactic(auto, unfolding(crate::specs::Summary::good_box))]
    fn is_good(self) -> bool
        ensures { result ≡ good_box self }
    {
        plane::is_in_range(self.least)
            && plane::is_in_range(self.greatest)
            && self.least.x <= self.greatest.x
            && self.least.y <= self.greatest.y
    }
}

impl Summary {
    // What its type asks, and the empty rule.
    fn is_good_for_type(self) -> bool
        ensures { result ≡ good_for self.shape self.empty self.bounds self.boundary }
    {
        if self.empty {
            return self.bounds == Bounds::NOWHERE && !self.boundary;
        }
        match self.shape {
            Shape::Points => !self.boundary,
            Shape::Line => !self.bounds.is_point() && (self.boundary || !self.bounds.is_flat()),
            Shape::Region => self.boundary && !self.bounds.is_flat(),
        }
    }

    pub fn is_good(self) -> bool
        ensures { result ≡ is_good self }
    {
        self.bounds.is_good() && self.is_good_for_type()
    }
}
