//! The arguments of a constraint, held in place.

use inplace::InPlace;
use table::row::PLACES;
use terms::Operand;

/// At most four operands.
pub type Arguments = InPlace<Operand, PLACES>;
