//! Which operands and primitives a theory knows.

ghost use Rattle.terms.specs.Answers.{Answers};
ghost use Rattle.theory.specs.Meanings.{Known, KnownAll};

use terms::{Operand, Primitive, is_value};

/// Whether `a` is a value, or a variable below `made`.
pub fn is_known(a: Operand, made: usize) -> bool
    ensures { Answers result (Known made a) }
{
    match a {
        Operand::Value(n) => is_value(n),
        Operand::Variable(x) => (x as usize) < made,
    }
}

/// Whether all in `p` is known.
pub fn is_known_all(p: Primitive<Operand>, made: usize) -> bool
    ensures { Answers result (KnownAll made p) }
{
    match p {
        Primitive::Same(a, b) => is_known(a, made) && is_known(b, made),
        Primitive::Least(a, n) => is_known(a, made) && is_value(n),
        Primitive::Most(a, n) => is_known(a, made) && is_value(n),
    }
}
