//! What a class can hold, with what primitives say of it.

ghost use Rattle.terms.specs.declared.Primitive.TheVariants.{Least, Most};
ghost use Rattle.contents.specs.Contents.{Holding};
ghost use Rattle.theory.specs.Wholes.{Truth};

use contents::content::Content;

/// A content under which primitives are read as true or false of numbers.
pub trait Interpreted: Content {
    /// Which primitives are true of numbers.
    ghost truth: { Truth };

    /// The values of which least `n` is true; none where there is none.
    fn at_least(n: i32) -> Option<Self>
        ensures { Holding Self.Content.holds (λ z. truth.True (Least z n)) result };

    /// The values of which most `n` is true; none where there is none.
    fn at_most(n: i32) -> Option<Self>
        ensures { Holding Self.Content.holds (λ z. truth.True (Most z n)) result };
}
