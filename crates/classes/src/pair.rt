//! Two contents beside one another.

ghost use Rattle.std.specs.Prelude.{◌≡◌, ℤ};
ghost use Rattle.terms.specs.Answers.{Answers};
ghost use Rattle.contents.specs.Contents.{Holding, HeldIn};

use contents::content::Content;

/// What both hold, if anything, where none holds nothing.
pub(crate) fn meeting<C: Content>(held: C, by: Option<C>) -> Option<C>
    ensures { Holding C.Content.holds (λ z. C.Content.holds held z × HeldIn C.Content.holds by z) result }
{
    held.meet(by?)
}

/// Whether both hold one value, and the same.
pub(crate) fn is_one_value<C: Content>(left: C, right: C) -> bool
    ensures { Answers result ((y z : ℤ) → C.Content.holds left y → C.Content.holds right z → y ≡ z) }
{
    let low = left.least();
    let high = left.greatest();
    let floor = right.least();
    let ceiling = right.greatest();
    low == ceiling && high == floor
}
