//! The plain lists of a sheet: what waits, what was applied, which variables were posted, and the next identifier. Nothing allocates once they are made.
#![tactic(auto)]

pub mod arguments;
pub mod entry;
pub mod lists;
mod reserved;
mod waiting;
