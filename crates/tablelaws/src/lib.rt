// What holds of every partner table: what a visit reaches, and what a list of changes makes of it.
#![tactic(auto)]

pub mod changes;
pub mod visits;
