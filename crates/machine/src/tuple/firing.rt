// What was applied.
use crate::tuple::Tuple;

/// A rule by its number, counted from 1, with the tuple that it was applied to.
#[derive(Clone, Copy, Debug, PartialEq)]
pub struct Firing {
    pub rule: usize,
    pub tuple: Tuple,
}
