// Terms, primitives and body items, filled with what stands in the slots of a body.
ghost use Rattle.std.specs.Prelude.{◌≡◌, ℕ, ◌+◌, ◌≤◌, min, map, length};
ghost use Rattle.applying.specs.Fillers.{Numbered, operand_at, placed_at, argument_counts};
ghost use Rattle.lists.specs.Entries.{arguments_list, goal_means};
ghost use Rattle.machine.specs.Matching.{fill, fill_goal};
ghost use Rattle.rules.specs.Valids.{GoalValid};
ghost use Rattle.rules.specs.Views.{goal_of};
ghost use Rattle.terms.specs.Lists.{All};
ghost use Rattle.terms.specs.Primitives.{TermValid};

use crate::body::Filler;
use lists::arguments::Arguments;
use lists::entry::Goal;
use rules::Item;
use seek::slots::filling::Filling;
use table::partner::PartnerTable;
use terms::{Operand, Term};

/// The greatest number of a variable.
const GREATEST_VARIABLE: usize = 255;

/// The number of the variable so many places after the made ones, or the greatest number where that is less.
fn number_after(made: usize, place: u8) -> u8
    ensures { result ≡ min (made + place) 255 }
{
    made.saturating_add(place as usize).min(GREATEST_VARIABLE) as u8
}

impl<P: PartnerTable> Filling for Filler<'_, P> {
    ghost at = { λ f. placed_at P.PartnerTable f };

    /// The argument of a head, or a fresh variable after the slots of all heads.
    fn slot(&self, slot: u8) -> Operand {
        let count = self.slots.rules.signature().slots(self.slots.heads);
        if slot < count {
            self.slots.slot(slot)
        } else {
            Operand::Variable(number_after(self.made, slot - count))
        }
    }
}

impl<P: PartnerTable> Filler<'_, P> {
    /// The first four terms, with what stands in their slots.
    fn fill_arguments(&self, terms: &[Term]) -> Arguments
        ensures { (n : ℕ) → Numbered self.now n → length terms.now ≤ 4 → All (TermValid n) terms.now → arguments_list result ≡ map (fill (operand_at P.PartnerTable self.now)) terms.now }
    {
        let mut arguments = Arguments::new();
        for term in terms {
            arguments = arguments.with(self.fill(*term));
        }
        arguments
    }

    /// A body item, with what stands in its slots.
    pub(super) fn fill_item(&self, item: &Item) -> Goal
        ensures { (n : ℕ) → Numbered self.now n → GoalValid (argument_counts self.now) n (goal_of item.now) → goal_means result ≡ fill_goal (operand_at P.PartnerTable self.now) (goal_of item.now) }
    {
        match item {
            Item::Tell(primitive) => Goal::Tell(self.fill_primitive(*primitive)),
            Item::Add { symbol, arguments } => Goal::Add {
                symbol: *symbol,
                arguments: self.fill_arguments(arguments),
            },
        }
    }
}
