//! Classes of variables told equal, each with what it holds: union-find, written once for every content whose meeting
//! is defined.

#![tactic(auto)]

pub mod forest;
mod pair;
pub mod row;
mod rows;
