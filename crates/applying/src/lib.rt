//! What applying a rule to a tuple changes, piece by piece: the fresh variables, the removed constraints, and the body on top of what waits.
#![tactic(auto)]

pub mod body;
pub mod changes;
