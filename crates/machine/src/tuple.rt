//! The identifiers that a rule is applied to, one for each head.

use inplace::InPlace;

mod firing;

pub use firing::Firing;

/// The most heads that a rule has.
pub const HEADS: usize = 3;

/// Identifiers in the order of the heads, at most one for each head.
pub type Tuple = InPlace<u32, HEADS>;
