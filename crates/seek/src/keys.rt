// The value by which the next head of a rule is sought.

use crate::slots::Slots;

mod tying;

/// The heads of a rule while partners are sought: those before the next one are filled by a tuple, and the active constraint stands at its head.
#[derive(Drop)]
pub(crate) struct Partial<'a, P> {
    pub(crate) slots: Slots<'a, P>,
    pub(crate) head: usize,
    pub(crate) active: u32,
}
