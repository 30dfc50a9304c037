//! Partners for an active constraint: the first tuple that a rule fits with it.

ghost use Rattle.rules.specs.Views.{rule_of};
ghost use Rattle.seek.specs.Attempts.{FewHeads};

use machine::tuple::Firing;
use rulefile::Rules;
use rules::Rule;

mod first;
mod ready;

/// What is read while partners are sought: the rules, the tuples that were recorded, what is known of the variables, and the constraints.
#[derive(Drop)]
pub struct Search<'a, T, P> {
    pub rules: &'a Rules,
    pub history: &'a [Firing],
    pub theory: &'a T,
    pub table: &'a P,
}

/// A rule by its number, counted from 1, with the active constraint at one of its heads, counted from 0.
#[derive(Clone, Copy)]
pub(crate) struct Attempt<'a> {
    number: usize,
    rule: &'a Rule,
    head: usize,
    active: u32,
    ghost few: { FewHeads (rule_of rule.now) },
}
