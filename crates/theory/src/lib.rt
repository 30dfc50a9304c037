//! Theories: what is known of numbered variables, told and asked by primitives.

#![tactic(auto)]

pub mod bounds;
mod claim;
pub mod forest_theory;
pub mod interface;
pub mod interpreted;
pub mod known;
pub mod names;
pub mod told;
pub mod uses;
