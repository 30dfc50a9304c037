//! What a class of variables can hold: a set of values whose meeting with another is defined.

#![tactic(auto)]

pub mod content;
pub mod ends;
pub mod number;
