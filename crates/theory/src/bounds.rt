//! The theory of bounds: a class holds a least and a greatest value.

ghost use Rattle.theory.specs.Wholes.{in_order};

use crate::interpreted::Interpreted;
use classes::forest::Forest;
use contents::content::Content;
use contents::ends::Ends;
use terms::{GREATEST_VALUE, LEAST_VALUE};

/// The theory of bounds.
pub type Bounds = Forest<Ends>;

impl Interpreted for Ends {
    ghost truth = { in_order };

    fn at_least(n: i32) -> Option<Ends> {
        Ends::between(n, GREATEST_VALUE)
    }

    fn at_most(n: i32) -> Option<Ends> {
        Ends::between(LEAST_VALUE, n)
    }
}
