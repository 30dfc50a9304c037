// The body of a rule on top of what waits.
ghost use Rattle.std.specs.Prelude.{ℕ, ◌++◌, map};
ghost use Rattle.applying.specs.Bodies.{BodyFits};
ghost use Rattle.applying.specs.Fillers.{ItemsFit, operand_at};
ghost use Rattle.lists.specs.Views.{Waits, waiting_of};
ghost use Rattle.machine.specs.Matching.{fill_goal, body_for};
ghost use Rattle.machine.specs.Sheets.{goal as goal_entry};
ghost use Rattle.machine.specs.Tuples.{ids};
ghost use Rattle.rulefile.specs.Rulebooks.{rules_book};
ghost use Rattle.rules.specs.Views.{goal_of, rule_of};
ghost use Rattle.seek.specs.Slots.{store_in};

use crate::body::Filler;
use lists::lists::Lists;
use machine::tuple::Tuple;
use rulefile::Rules;
use rules::{Item, Rule};
use seek::slots::Slots;
use table::partner::PartnerTable;

impl<P: PartnerTable> Filler<'_, P> {
    /// Puts the items, filled, on top of what waits, the first uppermost.
    fn push_items(&self, lists: &mut Lists, items: &[Item])
        ensures { (n : ℕ) → ItemsFit self.now lists.old (map goal_of items.now) n → Waits lists.old lists.new (map goal_entry (map (fill_goal (operand_at P.PartnerTable self.now)) (map goal_of items.now)) ++ waiting_of lists.old) }
    {
        for item in items.iter().rev() {
            let _ = lists.push(self.fill_item(item));
        }
    }
}

/// Puts the body of a rule, filled for the tuple, on top of what waits, its first item uppermost; the fresh variables are numbered from `made` on.
pub fn push_body<'a, P: PartnerTable>(
    lists: &mut Lists,
    rules: &'a Rules,
    table: &'a P,
    rule: &'a Rule,
    tuple: Tuple,
    made: usize,
)
    ensures { BodyFits lists.old rules.now rule.now made → Waits lists.old lists.new (map goal_entry (body_for (rules_book rules.now).arities (store_in P.PartnerTable table.now) (rule_of rule.now) (ids tuple) made) ++ waiting_of lists.old) }
{
    let slots = Slots {
        rules,
        table,
        heads: rule.heads.as_slice(),
        tuple,
    };
    let filler = Filler { slots, made };
    filler.push_items(lists, &rule.body);
}
