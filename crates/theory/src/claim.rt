//! Primitives as claims on a forest of classes.

ghost use Rattle.std.specs.Prelude.{◌≡◌};
ghost use Rattle.terms.specs.Answers.{Answers};
ghost use Rattle.terms.specs.declared.Primitive.TheVariants.{Same};
ghost use Rattle.contents.specs.Contents.{HeldIn};
ghost use Rattle.classes.specs.Forests.{made_in, Narrows, Throughout};
ghost use Rattle.theory.specs.Claims.{Claimed, OfMade, ClaimsOf, Claims};

use crate::interpreted::Interpreted;
use classes::forest::{Forest, NotMade};
use contents::content::Content;
use terms::{Operand, Primitive};

/// What a primitive says of variables: that two are the same, that one lies in a content (in none, where there is
/// none), or something that no variable touches.
#[derive(Clone, Copy)]
pub(crate) enum Claim<C> {
    Alike(u8, u8),
    Within(u8, Option<C>),
    Plain(bool),
}

// The hints keep a claim out of memory: it is made and taken apart in `tell` and in `ask`.
impl<C: Interpreted> From<Primitive<Operand>> for Claim<C> {
    ghost from_gives = { λ p c. Claims C.Interpreted.truth C.Content.holds p c };

    #[inline(always)]
    fn from(p: Primitive<Operand>) -> Claim<C> {
        match p {
            Primitive::Same(a, b) => alike(a, b),
            Primitive::Least(a, n) => within(a, C::at_least(n)),
            Primitive::Most(a, n) => within(a, C::at_most(n)),
        }
    }
}

/// Leaves the valuations in which a claim is true; refuses, and changes nothing, if one of its variables is not made.
#[inline(always)]
pub(crate) fn restrict<C: Content>(forest: &mut Forest<C>, claim: Claim<C>) -> Result<(), NotMade>
    ensures { Narrows C.Content.holds forest.old (OfMade (made_in forest.old) claim) (λ v. Claimed C.Content.holds claim v) result forest.new }
{
    match claim {
        Claim::Alike(x, y) => forest.join(x, y),
        Claim::Within(x, by) => forest.confine(x, by),
        Claim::Plain(holds) => {
            forest.keep(holds);
            Ok(())
        }
    }
}

/// Whether the variables of a claim are made, and it is true in every valuation.
#[inline(always)]
pub(crate) fn entails<C: Content>(forest: &Forest<C>, claim: Claim<C>) -> bool
    ensures { Answers result (OfMade (made_in forest.now) claim × Throughout C.Content.holds forest.now (λ v. Claimed C.Content.holds claim v)) }
{
    match claim {
        Claim::Alike(x, y) => forest.same(x, y),
        Claim::Within(x, by) => forest.lies_in(x, by),
        Claim::Plain(holds) => holds || forest.failed(),
    }
}

/// That `a` and `b` are the same.
#[inline(always)]
fn alike<C: Interpreted>(a: Operand, b: Operand) -> Claim<C>
    ensures { Claims C.Interpreted.truth C.Content.holds (Same a b) result }
{
    match (a, b) {
        (Operand::Variable(x), Operand::Variable(y)) => Claim::Alike(x, y),
        (Operand::Value(n), _) => within(b, C::only(n)),
        (_, Operand::Value(n)) => within(a, C::only(n)),
    }
}

/// That `by` holds what `a` stands for.
#[inline(always)]
fn within<C: Interpreted>(a: Operand, by: Option<C>) -> Claim<C>
    ensures { ClaimsOf C.Interpreted.truth C.Content.holds a by result }
{
    match a {
        Operand::Variable(x) => Claim::Within(x, by),
        Operand::Value(n) => Claim::Plain(contains(by, n)),
    }
}

/// Whether an optional content holds `n`.
#[inline(always)]
fn contains<C: Content>(by: Option<C>, n: i32) -> bool
    ensures { Answers result (HeldIn C.Content.holds by n) }
{
    match (by, C::only(n)) {
        (Some(all), Some(one)) => one.is_within(all),
        (None, _) | (_, None) => false,
    }
}
