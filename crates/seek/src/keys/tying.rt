// Values to which guards tie the first slot of the next head.
ghost use Rattle.std.specs.Prelude.{◌≡◌, ◌<◌, ◌≤◌, length};
ghost use Rattle.machine.specs.Keys.{value_of, value_in, is_slot, tied_to, key_from};
ghost use Rattle.machine.specs.Tuples.{ids};
ghost use Rattle.seek.specs.Fillings.{filler_at, value_beside, known_in, key_in};

use crate::keys::Partial;
use crate::slots::filling::{argument_of, identifier_at};
use table::partner::PartnerTable;
use terms::{Operand, Primitive, Term};

/// The value that an operand is; a variable gives none.
// No `TryFrom`, which would need an error that no caller reads.
fn value(operand: Option<Operand>) -> Option<i32>
    ensures { result ≡ value_of operand }
{
    match operand {
        Some(Operand::Value(n)) => Some(n),
        _ => None,
    }
}

/// Whether a term is that slot.
fn is_slot(slot: u8, term: Term) -> bool
    ensures { result ≡ is_slot slot term }
{
    term == Term::Slot(slot)
}

impl<P> Partial<'_, P> {
    /// The constraint at a head: the tuple's, or the active one at its own head.
    fn filler(&self, place: usize) -> Option<u32>
        ensures { result ≡ filler_at (ids self.now.slots.tuple) self.now.head self.now.active place }
    {
        let own = (place == self.head).then_some(self.active);
        identifier_at(self.slots.tuple, place).or(own)
    }
}

impl<P: PartnerTable> Partial<'_, P> {
    /// What stands in a slot, if its head is filled.
    fn known(&self, slot: u8) -> Option<Operand>
        ensures { result ≡ known_in P.PartnerTable self.now slot }
    {
        let (place, argument) = self.slots.locate(slot)?;
        argument_of(self.slots.table, self.filler(place), argument)
    }

    /// The value of a term, if it is known.
    fn value_in(&self, term: Term) -> Option<i32>
        ensures { result ≡ value_in (known_in P.PartnerTable self.now) term }
    {
        match term {
            Term::Value(n) => Some(n),
            Term::Slot(k) => value(self.known(k)),
        }
    }

    /// The value of a term, if the other is that slot.
    fn value_beside(&self, slot: u8, other: Term, term: Term) -> Option<i32>
        ensures { result ≡ value_beside (known_in P.PartnerTable self.now) slot other term }
    {
        if is_slot(slot, other) {
            self.value_in(term)
        } else {
            None
        }
    }

    /// The value to which a guard same, either way round, ties a slot.
    fn tied_to(&self, slot: u8, guard: Primitive<Term>) -> Option<i32>
        ensures { result ≡ tied_to (known_in P.PartnerTable self.now) slot guard }
    {
        match guard {
            Primitive::Same(a, b) => {
                let first = self.value_beside(slot, a, b);
                first.or(self.value_beside(slot, b, a))
            }
            Primitive::Least(_, _) | Primitive::Most(_, _) => None,
        }
    }

    /// The value to which the first guard that does so ties a slot.
    fn key_from(&self, slot: u8, guards: &[Primitive<Term>]) -> Option<i32>
        ensures { result ≡ key_from (known_in P.PartnerTable self.now) slot guards.now }
    {
        // A loop: what `find_map` ensures is told of its calls, and no lemma leads from them to the items of a slice.
        for guard in guards {
            let value = self.tied_to(slot, *guard);
            if value.is_some() {
                return value;
            }
        }
        None
    }

    /// The value by which the next head is sought: that to which the guards tie its first slot, if its symbol takes arguments.
    pub(crate) fn key(&self, guards: &[Primitive<Term>]) -> Option<i32>
        requires few { length self.now.slots.heads.now ≤ 3 }
        requires left { length (ids self.now.slots.tuple) < length self.now.slots.heads.now }
        ensures { result ≡ key_in P.PartnerTable self.now guards.now }
    {
        let slots = &self.slots;
        let signature = slots.rules.signature();
        let place = slots.tuple.as_slice().len();
        if signature.arity(slots.heads[place]) == 0 {
            return None;
        }
        self.key_from(signature.slots(&slots.heads[..place]), guards)
    }
}
