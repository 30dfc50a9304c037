//! The classes of the variables that are made, and whether any of their valuations is left.

ghost use Rattle.std.specs.Prelude.{◌≤◌, vec_capacity};
ghost use Rattle.classes.specs.Rows.{Rooted};

use crate::row::ClassRow;

pub mod methods;

/// Variables told equal form a class. A class holds a content; nothing is admitted once `failed` is set.
// A flag beside the rows: a failed forest goes on making and counting variables, so two variants would hold the same.
#[derive(Drop)]
pub struct Forest<C> {
    rows: Vec<ClassRow<C>>,
    failed: bool,
    ghost ok: { Rooted rows.items },
    ghost roomy: { 256 ≤ vec_capacity rows },
}

/// A variable is not made.
#[derive(Clone, Copy, Debug, PartialEq, Eq)]
pub struct NotMade;
