// Terms and primitives, filled with what stands in the slots.
ghost use Rattle.std.specs.Prelude.{◌≡◌, ℕ};
ghost use Rattle.terms.specs.declared.Operand.{Operand};
ghost use Rattle.rulefile.specs.Rulebooks.{rules_book};
ghost use Rattle.table.specs.Lists.{nth};
ghost use Rattle.machine.specs.Matching.{fill, fill_primitive};
ghost use Rattle.machine.specs.Keys.{filled_argument};
ghost use Rattle.machine.specs.Tuples.{ids};
ghost use Rattle.seek.specs.Slots.{located, store_in, slot_in, argument_in};

use crate::slots::Slots;
use machine::tuple::Tuple;
use table::partner::PartnerTable;
use terms::{Operand, Primitive, Term};

/// What an operand stands for each slot of a rule.
pub trait Filling {
    /// What stands in each slot.
    ghost at: { Self → ℕ → Operand };

    /// What stands in a slot.
    fn slot(&self, slot: u8) -> Operand
        ensures { result ≡ at self.now slot };

    /// A term, with what stands in its slot.
    final fn fill(&self, term: Term) -> Operand
        ensures { result ≡ fill (at self.now) term }
    {
        match term {
            Term::Value(n) => Operand::Value(n),
            Term::Slot(k) => self.slot(k),
        }
    }

    /// A primitive, with what stands in its slots.
    final fn fill_primitive(&self, primitive: Primitive<Term>) -> Primitive<Operand>
        ensures { result ≡ fill_primitive (at self.now) primitive }
    {
        match primitive {
            Primitive::Same(a, b) => Primitive::Same(self.fill(a), self.fill(b)),
            Primitive::Least(a, n) => Primitive::Least(self.fill(a), n),
            Primitive::Most(a, n) => Primitive::Most(self.fill(a), n),
        }
    }
}

/// The identifier at a place of the tuple, if there is one.
pub(crate) fn identifier_at(tuple: Tuple, place: usize) -> Option<u32>
    ensures { result ≡ nth (ids tuple) place }
{
    tuple.as_slice().get(place).copied()
}

/// An argument of the constraint, if there is a constraint and it has that.
pub(crate) fn argument_of<P: PartnerTable>(
    table: &P,
    constraint: Option<u32>,
    argument: usize,
) -> Option<Operand>
    ensures { result ≡ filled_argument (store_in P.PartnerTable table.now) constraint argument }
{
    table.argument(constraint?, argument)
}

impl<P> Slots<'_, P> {
    /// The head that a slot belongs to, and the argument of that head that it is.
    pub(crate) fn locate(&self, slot: u8) -> Option<(usize, usize)>
        ensures { result ≡ located (rules_book self.now.rules.now).arities self.now.heads.now slot }
    {
        let signature = self.rules.signature();
        let mut left = slot;
        for (place, symbol) in self.heads.iter().enumerate() {
            let arity = signature.arity(*symbol);
            if left < arity {
                return Some((place, left as usize));
            }
            left -= arity;
        }
        None
    }
}

impl<P: PartnerTable> Slots<'_, P> {
    /// The argument of the constraint at the head that a slot belongs to, if there is one.
    fn argument(&self, slot: u8) -> Option<Operand>
        ensures { result ≡ argument_in P.PartnerTable self.now slot }
    {
        let (place, argument) = self.locate(slot)?;
        argument_of(self.table, identifier_at(self.tuple, place), argument)
    }
}

impl<P: PartnerTable> Filling for Slots<'_, P> {
    ghost at = { λ f. slot_in P.PartnerTable f };

    /// The argument of the constraint at the head that the slot belongs to, and 0 where there is none.
    fn slot(&self, slot: u8) -> Operand {
        self.argument(slot).unwrap_or_default()
    }
}
