//! The theory of names: a class holds a number, or nothing yet. Least and most are never true.

ghost use Rattle.theory.specs.Wholes.{named};

use crate::interpreted::Interpreted;
use classes::forest::Forest;
use contents::content::Content;
use contents::number::Number;

/// The theory of names.
pub type Names = Forest<Option<Number>>;

impl Interpreted for Option<Number> {
    ghost truth = { named };

    fn at_least(_n: i32) -> Option<Option<Number>> {
        None
    }

    fn at_most(_n: i32) -> Option<Option<Number>> {
        None
    }
}
