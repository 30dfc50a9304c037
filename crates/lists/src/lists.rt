//! The plain lists of a sheet.

ghost use Rattle.lists.specs.Rooms.{Following};

use crate::reserved::Reserved;
use crate::waiting::Waiting;
use machine::tuple::Firing;

mod changes;
mod making;
mod reading;
mod waking;

/// How many items can wait.
pub const WAITING: usize = 512;

/// How many tuples the history can hold.
pub const HISTORY: usize = 512;

/// How many variables there can be.
pub const VARIABLES: usize = 256;

/// What waits, what was applied, which variables were posted and the next identifier; all memory is there from the start.
#[derive(Drop)]
pub struct Lists {
    waiting: Waiting,
    history: Reserved<Firing, HISTORY>,
    posted: [bool; VARIABLES],
    next: u32,
    woken: Reserved<u32, WAITING>,
    ghost next_kept: { Following next },
}
