// Partner tables: the records of living constraints, found by identifier, by symbol and by key.
#![tactic(auto)]

pub mod partner;
pub mod put;
pub mod row;
pub mod rows;
pub mod scan;
