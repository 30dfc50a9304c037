//! Where a symbol occurs in the rules, what stands in the slots of a rule's heads, and the first tuple that a rule fits.
#![tactic(auto)]

mod keys;
pub mod occurrences;
pub mod partners;
pub mod slots;
pub mod theorems;
