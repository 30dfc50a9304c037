//! The rules by number, and where a symbol occurs in them.

ghost use Rattle.std.specs.Prelude.{◌≡◌, ◌≤◌, IfSome, MatchOption, OnSome};
ghost use Rattle.table.specs.Lists.{nth};
ghost use Rattle.rules.specs.Valids.{Valid};
ghost use Rattle.rules.specs.Views.{rule_of};
ghost use Rattle.rulefile.specs.Rulebooks.{rules_book};
ghost use Rattle.machine.specs.Occurrences.{occurrences};
ghost use Rattle.seek.specs.Places.{InRange, RuleIs, HeadHas, PlaceIn};

use rulefile::Rules;
use rules::Rule;
use std::ops::ControlFlow;

/// The rule of that number, counted from 1, if there is one.
pub fn rule(rules: &Rules, number: usize) -> Option<&Rule>
    ensures value { MatchOption result (InRange (rules_book rules.now) number → ⊥) (λ x. RuleIs (rules_book rules.now) number (rule_of x.now)) }
    ensures valid { Valid (rules_book rules.now) }
{
    let all = rules.rules();
    let place = number.checked_sub(1)?;
    all.get(place)
}

/// The place of the head with the symbol that comes `index` after the last such head, counted from the last to the first; or how many of `index` are left where there are too few.
fn place_in(heads: &[u8], symbol: u8, index: usize) -> ControlFlow<usize, usize>
    ensures { PlaceIn heads.now symbol index result }
{
    let mut left = index;
    for (place, head) in heads.iter().enumerate().rev() {
        if *head == symbol {
            if left == 0 {
                return ControlFlow::Break(place);
            }
            left -= 1;
        }
    }
    ControlFlow::Continue(left)
}

/// The rule's number and the head's place where a symbol occurs for the time `index`, counted from 0.
pub fn occurrence(rules: &Rules, symbol: u8, index: usize) -> Option<(usize, usize)>
    ensures value { result ≡ nth (occurrences (rules_book rules.now) symbol) index }
    ensures has { IfSome result (λ o. HeadHas (rules_book rules.now) symbol o.0 o.1) }
    ensures small { OnSome result (index ≤ 100) }
{
    let mut left = index;
    for (k, rule) in rules.rules().iter().enumerate() {
        match place_in(&rule.heads, symbol, left) {
            ControlFlow::Break(place) => return Some((k + 1, place)),
            ControlFlow::Continue(rest) => left = rest,
        }
    }
    None
}
