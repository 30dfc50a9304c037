// A whole rule as text.
ghost use Rattle.std.specs.Prelude.{◌≤◌, Some, map, length, vec_len};
ghost use Rattle.std.specs.Fmt.{WritesOnOk};
ghost use Rattle.rules.specs.Views.{goal_of, rule_of};
ghost use Rattle.listing.specs.Texts.{constraint_text, slots_from, heads_text, sides_text, guards_text, body_text, rule_text};

use crate::source::{Constraint, Separated, show_comma};
use rules::{Item, Rule, Signature};
use std::fmt;
use terms::{Primitive, Term};

/// Heads whose slots are numbered from `first` on.
#[derive(Clone, Copy)]
struct Heads<'a> {
    signature: Signature<'a>,
    symbols: &'a [u8],
    first: u8,
    ghost few: { length symbols.now ≤ 3 },
    ghost low: { first ≤ 12 },
}

impl fmt::Display for Heads<'_> {
    ghost output = { λ h. Some (heads_text h.signature.arities.now h.first h.symbols.now) };

    fn fmt<W: fmt::Write>(&self, f: &mut fmt::Formatter<W>) -> fmt::Result {
        let mut slot = self.first;
        for (i, symbol) in self.symbols.iter().enumerate() {
            show_comma(i, f)?;
            let count = self.signature.arity(*symbol);
            show_head(*symbol, slot, count, f)?;
            slot += count;
        }
        Ok(())
    }
}

/// A head with `count` slots from `first` on.
fn show_head<W: fmt::Write>(
    symbol: u8,
    first: u8,
    count: u8,
    f: &mut fmt::Formatter<W>,
) -> fmt::Result
    requires { (count ≤ 4) × (first ≤ 100) }
    ensures { WritesOnOk W.Write.write_str_gives f.old result (constraint_text symbol (slots_from first count)) f.new }
{
    let slots = [
        Term::Slot(first),
        Term::Slot(first + 1),
        Term::Slot(first + 2),
        Term::Slot(first + 3),
    ];
    let arguments = &slots[..count as usize];
    write!(f, "{}", Constraint { symbol, arguments })
}

/// The guards and the bar after them, where there are any.
#[derive(Clone, Copy)]
struct Guards<'a>(&'a [Primitive<Term>]);

impl fmt::Display for Guards<'_> {
    ghost output = { λ g. Some (guards_text g.0.now) };

    fn fmt<W: fmt::Write>(&self, f: &mut fmt::Formatter<W>) -> fmt::Result {
        if self.0.is_empty() {
            return Ok(());
        }
        write!(f, "{} | ", Separated(self.0))
    }
}

/// The body, or `true` where there is none.
#[derive(Clone, Copy)]
struct Body<'a>(&'a [Item]);

impl fmt::Display for Body<'_> {
    ghost output = { λ b. Some (body_text (map goal_of b.0.now)) };

    fn fmt<W: fmt::Write>(&self, f: &mut fmt::Formatter<W>) -> fmt::Result {
        if self.0.is_empty() {
            return f.write_str("true");
        }
        write!(f, "{}", Separated(self.0))
    }
}

/// A rule by its number, over the symbols of its file.
#[derive(Clone, Copy)]
pub struct RuleText<'a> {
    pub signature: Signature<'a>,
    pub number: usize,
    pub rule: &'a Rule,
    ghost few: { vec_len rule.now.heads ≤ 3 },
}

impl RuleText<'_> {
    /// The heads, and the arrow after them.
    fn show_sides<W: fmt::Write>(&self, f: &mut fmt::Formatter<W>) -> fmt::Result
        ensures { WritesOnOk W.Write.write_str_gives f.old result (sides_text self.now.signature.arities.now (rule_of self.now.rule.now).kept (rule_of self.now.rule.now).removed) f.new }
    {
        let signature = self.signature;
        let kept = Heads {
            signature,
            symbols: self.rule.kept_heads(),
            first: 0,
        };
        let removed = Heads {
            signature,
            symbols: self.rule.removed_heads(),
            first: signature.slots(kept.symbols),
        };
        if removed.symbols.is_empty() {
            write!(f, "{kept} ==> ")
        } else if kept.symbols.is_empty() {
            write!(f, "{removed} <=> ")
        } else {
            write!(f, "{kept} \\ {removed} <=> ")
        }
    }
}

impl fmt::Display for RuleText<'_> {
    ghost output = { λ t. Some (rule_text t.signature.arities.now t.number (rule_of t.rule.now)) };

    fn fmt<W: fmt::Write>(&self, f: &mut fmt::Formatter<W>) -> fmt::Result {
        write!(f, "r{} @ ", self.number)?;
        self.show_sides(f)?;
        write!(
            f,
            "{}{}.\n",
            Guards(&self.rule.guards),
            Body(&self.rule.body)
        )
    }
}
