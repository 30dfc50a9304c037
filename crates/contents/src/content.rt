//! What a class can hold.

ghost use Rattle.std.specs.Prelude.{◌≡◌, ℤ, ◌≤ℤ◌};
ghost use Rattle.terms.specs.Answers.{Answers};
ghost use Rattle.terms.specs.Values.{IsValue};
ghost use Rattle.contents.specs.Contents.{Holding};

/// A set of values that is not empty, and whose meeting with another is defined.
pub trait Content: Copy {
    /// The values in it.
    ghost holds: { Self → ℤ → Type 0 };

    ghost low: { Self → ℤ };

    ghost high: { Self → ℤ };

    /// Every value.
    fn all() -> Self
        ensures { (z : ℤ) → IsValue z → holds result z };

    /// The value `n` alone; none if `n` is no value.
    fn only(n: i32) -> Option<Self>
        ensures { Holding holds (λ z. z ≡ n) result };

    /// What both hold, if anything.
    fn meet(self, other: Self) -> Option<Self>
        ensures { Holding holds (λ z. holds self z × holds other z) result };

    /// Whether all in it is in `other`.
    fn is_within(self, other: Self) -> bool
        ensures { Answers result ((z : ℤ) → holds self z → holds other z) };

    fn least(self) -> i32
        ensures { result ≡ low self };

    fn greatest(self) -> i32
        ensures { result ≡ high self };

    ghost ends: { (c : Self) → holds c (low c) × holds c (high c) };

    ghost between: { (c : Self) (z : ℤ) → holds c z → (low c ≤ℤ z) × (z ≤ℤ high c) };

    ghost proper: { (c : Self) (z : ℤ) → holds c z → IsValue z };
}
