//! What waits to be done.

ghost use Rattle.std.specs.Prelude.{◌≡◌};
ghost use Rattle.lists.specs.Entries.{goal_means, storable};

use crate::arguments::Arguments;
use table::rows::{SYMBOLS, all_fitting};
use terms::{Operand, Primitive};

/// A primitive to tell, or a constraint to add.
#[derive(Clone, Copy)]
pub enum Goal {
    Tell(Primitive<Operand>),
    Add { symbol: u8, arguments: Arguments },
}

impl Goal {
    /// Whether it is a primitive, or a constraint that a table takes.
    pub fn is_storable(self) -> bool
        ensures { result ≡ storable (goal_means self) }
    {
        match self {
            Goal::Tell(_) => true,
            Goal::Add { symbol, arguments } => {
                (symbol as usize) < SYMBOLS && all_fitting(arguments.as_slice())
            }
        }
    }
}

/// What waits: a goal, a constraint to wake, or a constraint that is active at one of its occurrences, counted from 0.
#[derive(Clone, Copy)]
pub enum Entry {
    Goal(Goal),
    Wake(u32),
    Active { identifier: u32, occurrence: usize },
}
