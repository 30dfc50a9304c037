// Whether a rule can be applied to a tuple that fills its heads.
ghost use Rattle.std.specs.Prelude.{map};
ghost use Rattle.terms.specs.Answers.{Answers};
ghost use Rattle.rules.specs.Views.{rule_of};
ghost use Rattle.machine.specs.Lists.{◌∈◌};
ghost use Rattle.machine.specs.Tuples.{ids, firing_of};
ghost use Rattle.seek.specs.Searches.{view, Guarded, Ready};

use crate::partners::{Attempt, Search};
use crate::slots::Slots;
use crate::slots::filling::Filling;
use machine::tuple::{Firing, Tuple};
use table::partner::PartnerTable;
use terms::{Primitive, Term};
use theory::interface::Theory;

/// Whether every guard follows.
fn guarded<T: Theory, P: PartnerTable>(
    theory: &T,
    slots: &Slots<'_, P>,
    guards: &[Primitive<Term>],
) -> bool
    ensures { Answers result (Guarded T.Theory P.PartnerTable theory.now slots.now guards.now) }
{
    guards
        .iter()
        .all(|guard| theory.ask(slots.fill_primitive(*guard)))
}

/// Whether the rule was applied to the tuple.
fn was_applied(history: &[Firing], number: usize, tuple: Tuple) -> bool
    ensures { Answers result ((number, ids tuple) ∈ map firing_of history.now) }
{
    history
        .iter()
        .any(|firing| firing.rule == number && firing.tuple == tuple)
}

impl<'a, T: Theory, P: PartnerTable> Search<'a, T, P> {
    /// Whether the rule, if it removes nothing, was not applied to the tuple before, and its guards follow.
    pub(super) fn ready(&self, attempt: Attempt<'a>, tuple: Tuple) -> bool
        ensures { Answers result (Ready T.Theory P.PartnerTable (view self.now) attempt.entry.number (rule_of attempt.entry.rule.now) (ids tuple)) }
    {
        let rule = attempt.rule;
        if rule.removed_heads().is_empty() && was_applied(self.history, attempt.number, tuple) {
            return false;
        }
        let slots = Slots {
            rules: self.rules,
            table: self.table,
            heads: rule.heads.as_slice(),
            tuple,
        };
        guarded(self.theory, &slots, &rule.guards)
    }
}
