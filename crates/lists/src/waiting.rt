//! What waits, in memory that is there from the start.

ghost use Rattle.lists.specs.Rooms.{WaitingKept};

use crate::entry::Entry;
use std::collections::VecDeque;

mod methods;

/// The items that wait, the top first.
#[derive(Drop)]
pub struct Waiting {
    entries: VecDeque<Entry>,
    ghost kept: { WaitingKept entries },
}
