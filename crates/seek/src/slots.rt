//! What stands in the slots of a rule's heads.

use machine::tuple::Tuple;
use rulefile::Rules;

pub mod filling;

/// The heads of a rule, by their symbols, with a tuple that fills them.
// Its makers write it out: from a constructor each would know the four fields by four facts, and carry what it proves along each.
#[derive(Drop)]
pub struct Slots<'a, P> {
    pub rules: &'a Rules,
    pub table: &'a P,
    pub heads: &'a [u8],
    pub tuple: Tuple,
}
