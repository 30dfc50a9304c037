//! The refined machine and the abstract one, rules read as logic, and what is proved of them over any theory and any partner table.
#![tactic(auto)]

pub mod answers;
pub mod theorems;
pub mod tuple;
