//! Uses of any theory, by its meaning alone.

ghost use Rattle.std.specs.Prelude.{◌≡◌, true, ◌≢◌};
ghost use Rattle.theory.specs.Runs.{ToldAll, SameInAnyOrder};
ghost use Rattle.theory.specs.Says.{TellSays};

use crate::interface::Theory;
use crate::told::Told;
use terms::{Operand, Primitive};

/// Tells `p` and then asks it: what was told is true, if it was known.
pub fn tell_and_ask<T: Theory>(theory: &mut T, p: Primitive<Operand>) -> (Told, bool)
    ensures told { TellSays (T.Theory.means theory.old) p result.0 (T.Theory.means theory.new) }
    ensures asked { (result.0 ≢ Told.Unknown) → result.1 ≡ true }
{
    let told = theory.tell(p);
    let answer = theory.ask(p);
    (told, answer)
}

/// Tells each of `ps`, in order.
pub fn tell_all<T: Theory>(theory: &mut T, ps: &[Primitive<Operand>])
    ensures { ToldAll (T.Theory.means theory.old) ps.now (T.Theory.means theory.new) }
{
    for p in ps {
        theory.tell(*p);
    }
}

/// Tells `ps` to one theory and `qs` to another. If both meant the same, and the lists have the same primitives in two
/// orders, both mean the same again.
pub fn tell_in_two_orders<T: Theory>(
    one: &mut T,
    other: &mut T,
    ps: &[Primitive<Operand>],
    qs: &[Primitive<Operand>],
)
    ensures first { ToldAll (T.Theory.means one.old) ps.now (T.Theory.means one.new) }
    ensures second { ToldAll (T.Theory.means other.old) qs.now (T.Theory.means other.new) }
    ensures alike { SameInAnyOrder (T.Theory.means one.old) ps.now (T.Theory.means one.new) (T.Theory.means other.old) qs.now (T.Theory.means other.new) }
{
    tell_all(one, ps);
    tell_all(other, qs);
}
