// The first tuple that a rule fits.
ghost use Rattle.std.specs.Prelude.{◌≡◌, ◌<◌, length};
ghost use Rattle.std.specs.Option.{option_map};
ghost use Rattle.terms.specs.Answers.{Answers};
ghost use Rattle.rules.specs.Views.{rule_of};
ghost use Rattle.machine.specs.Keys.{key_at};
ghost use Rattle.machine.specs.Lists.{◌∈◌};
ghost use Rattle.machine.specs.Tuples.{ids};
ghost use Rattle.seek.specs.Fillings.{filler_at};
ghost use Rattle.seek.specs.Slots.{store_in};
ghost use Rattle.seek.specs.Searches.{view, AtHead, Begun, FirstFrom, MayFill, Searched};

use crate::keys::Partial;
use crate::occurrences;
use crate::partners::{Attempt, Search};
use crate::slots::Slots;
use machine::tuple::Tuple;
use table::partner::PartnerTable;
use tablelaws::visits::Identifiers;
use theory::interface::Theory;

/// Whether the tuple names the identifier.
fn has(tuple: Tuple, identifier: u32) -> bool
    ensures { Answers result (identifier ∈ ids tuple) }
{
    tuple.as_slice().contains(&identifier)
}

/// Whether a constraint is another than the active one and those of the tuple, and has the symbol.
fn may_fill<P: PartnerTable>(
    table: &P,
    active: u32,
    symbol: u8,
    tuple: Tuple,
    identifier: u32,
) -> bool
    ensures { Answers result (MayFill (store_in P.PartnerTable table.now) active symbol (ids tuple) identifier) }
{
    identifier != active && !has(tuple, identifier) && table.symbol(identifier) == Some(symbol)
}

impl<'a, T: Theory, P: PartnerTable> Search<'a, T, P> {
    /// The value by which the next head after those of the tuple is sought.
    fn key(&self, attempt: Attempt<'a>, tuple: Tuple) -> Option<i32>
        requires { length (ids tuple) < length attempt.rule.now.heads.items }
        ensures { result ≡ key_at (view self.now).book.arities (store_in P.PartnerTable self.now.table.now) (rule_of attempt.entry.rule.now) (filler_at (ids tuple) attempt.entry.head attempt.entry.active) (length (ids tuple)) }
    {
        let partial = Partial {
            slots: Slots {
                rules: self.rules,
                table: self.table,
                heads: attempt.rule.heads.as_slice(),
                tuple,
            },
            head: attempt.head,
            active: attempt.active,
        };
        partial.key(&attempt.rule.guards)
    }

    /// The first fitting tuple that begins with the identifiers of `tuple`.
    fn first_from(&self, attempt: Attempt<'a>, tuple: Tuple) -> Option<Tuple>
        ensures { Begun T.Theory P.PartnerTable (view self.now) attempt.entry.number attempt.entry.head attempt.entry.active (rule_of attempt.entry.rule.now) (ids tuple) → FirstFrom T.Theory P.PartnerTable (view self.now) attempt.entry.number attempt.entry.head attempt.entry.active (ids tuple) (option_map ids result) }
    {
        let heads = attempt.rule.heads.as_slice();
        let active = attempt.active;
        let place = tuple.as_slice().len();
        if place >= heads.len() {
            return self.ready(attempt, tuple).then_some(tuple);
        }
        if place == attempt.head {
            return if has(tuple, active) {
                None
            } else {
                self.first_from(attempt, tuple.with(active))
            };
        }
        let symbol = heads[place];
        let key = self.key(attempt, tuple);
        for identifier in Identifiers::of(self.table, Some(symbol), key) {
            if may_fill(self.table, active, symbol, tuple, identifier) {
                let found = self.first_from(attempt, tuple.with(identifier));
                if found.is_some() {
                    return found;
                }
            }
        }
        None
    }

    /// The first tuple that the rule of that number, counted from 1, fits with the active constraint at the head, counted from 0; none where no tuple fits.
    pub fn first_fitting(&self, number: usize, head: usize, active: u32) -> Option<Tuple>
        ensures { AtHead T.Theory P.PartnerTable (view self.now) number head active → Searched T.Theory P.PartnerTable (view self.now) number head active (option_map ids result) }
    {
        let rule = occurrences::rule(self.rules, number)?;
        let attempt = Attempt {
            number,
            rule,
            head,
            active,
        };
        self.first_from(attempt, Tuple::new())
    }
}
