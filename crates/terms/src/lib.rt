// Values, operands, terms and primitives: what constraints and rules are made of.
#![tactic(auto)]

ghost use Rattle.std.specs.Prelude.{◌≡◌, pos};
ghost use Rattle.terms.specs.declared.Operand.TheVariants.{Value};
ghost use Rattle.terms.specs.Answers.{Answers};
ghost use Rattle.terms.specs.Values.{IsValue, is_value};

/// The least value.
pub const LEAST_VALUE: i32 = -1_000_000;

/// The greatest value.
pub const GREATEST_VALUE: i32 = 1_000_000;

/// What a constraint's argument is: a value, or a variable by its number.
#[derive(Clone, Copy, Debug, PartialEq)]
pub enum Operand {
    Value(i32),
    Variable(u8),
}

impl Default for Operand {
    ghost is_default = { λ a. a ≡ Value (pos 0) };

    /// The value 0.
    fn default() -> Operand {
        Operand::Value(0)
    }
}

/// What a rule says of an argument: a value, or the slot whose operand it is.
#[derive(Clone, Copy, Debug, PartialEq)]
pub enum Term {
    Value(i32),
    Slot(u8),
}

/// What can be told or asked: that two are the same, that one is at least a number, or at most a number.
#[derive(Clone, Copy, Debug, PartialEq)]
pub enum Primitive<A> {
    Same(A, A),
    Least(A, i32),
    Most(A, i32),
}

/// Whether a number is a value.
pub fn is_value(n: i32) -> bool
    ensures test { result ≡ is_value n }
    ensures range { Answers result (IsValue n) }
{
    (LEAST_VALUE..=GREATEST_VALUE).contains(&n)
}
