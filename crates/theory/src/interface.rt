//! What every theory keeps and answers.

ghost use Rattle.std.specs.Prelude.{◌≡◌, ℕ};
ghost use Rattle.terms.specs.Answers.{Answers};
ghost use Rattle.terms.specs.Domains.{Domain};
ghost use Rattle.theory.specs.Meanings.{Meaning, Follows, Failed, Fixed, Clear, Lawful};
ghost use Rattle.theory.specs.Says.{MakeSays, TellSays, LeastSays, GreatestSays};

use crate::told::Told;
use terms::{Operand, Primitive};

/// What is known of variables 0, 1, 2 and so on: the variables made, and the valuations admitted.
pub trait Theory {
    /// What variables stand for, and when a primitive is true of such.
    ghost domain: { Domain };

    /// The variables made, and the valuations admitted.
    ghost means: { Self → Meaning domain };

    /// How many variables can be made.
    ghost capacity: { ℕ };

    /// How many variables can be made.
    fn capacity() -> usize
        ensures { result ≡ capacity };

    /// No variable is made, and every valuation admitted.
    fn clear(&mut self)
        ensures { Clear (means self.new) };

    /// A new variable, the next number; none at capacity.
    fn make(&mut self) -> Option<u8>
        ensures { MakeSays capacity (means self.old) result (means self.new) };

    /// Keeps the valuations in which `p` is true.
    fn tell(&mut self, p: Primitive<Operand>) -> Told
        ensures { TellSays (means self.old) p result (means self.new) };

    /// Whether `p` is known and true in every admitted valuation.
    fn ask(&self, p: Primitive<Operand>) -> bool
        ensures { Answers result (Follows (means self.now) p) };

    /// Whether `x` is made and no two admitted valuations differ on it.
    fn fixed(&self, x: u8) -> bool
        ensures { Answers result (Fixed (means self.now) x) };

    /// Whether no valuation is admitted.
    fn failed(&self) -> bool
        ensures { Answers result (Failed (means self.now)) };

    /// How many variables are made.
    fn count(&self) -> usize
        ensures { result ≡ (means self.now).made };

    /// The capacity is 1 to 256 and never passed; what is admitted is proper, and depends on made variables only.
    ghost lawful: { Lawful means capacity };
}

/// A theory that knows the ends of what a variable can be.
pub trait RangedTheory: Theory {
    /// The least admitted value of `x`; none if `x` is not made, or nothing is admitted.
    fn least(&self, x: u8) -> Option<i32>
        ensures { LeastSays (Self.Theory.means self.now) x result };

    /// The greatest admitted value of `x`; none if `x` is not made, or nothing is admitted.
    fn greatest(&self, x: u8) -> Option<i32>
        ensures { GreatestSays (Self.Theory.means self.now) x result };
}
