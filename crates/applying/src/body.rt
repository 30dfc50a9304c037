//! The body of a rule, filled for a tuple.

use seek::slots::Slots;

mod filling;
mod pushing;

pub use pushing::push_body;

/// What fills the slots of a rule's heads, and how many variables were made before the fresh ones.
#[derive(Drop)]
pub(crate) struct Filler<'a, P> {
    slots: Slots<'a, P>,
    made: usize,
}
