// The parts of a rule as text.
ghost use Rattle.std.specs.Prelude.{ℕ, List, Some, map, codes};
ghost use Rattle.std.specs.Fmt.{WritesOnOk};
ghost use Rattle.rules.specs.Views.{goal_of};
ghost use Rattle.listing.specs.Texts.{separated, comma_before, term_text, primitive_text, guard_text, constraint_text, goal_text};

use rules::Item;
use std::fmt;
use terms::{Primitive, Term};

/// What has a text in the source of a rule: a `Display` for the types of other crates.
pub trait Source {
    ghost text: { Self → List ℕ };

    fn show<W: fmt::Write>(&self, f: &mut fmt::Formatter<W>) -> fmt::Result
        ensures { WritesOnOk W.Write.write_str_gives f.old result (text self.now) f.new };
}

/// A part, shown by its text.
#[derive(Clone, Copy)]
pub struct Shown<'a, S>(pub &'a S);

impl<S: Source> fmt::Display for Shown<'_, S> {
    ghost output = { λ s. Some (S.Source.text s.0.now) };

    fn fmt<W: fmt::Write>(&self, f: &mut fmt::Formatter<W>) -> fmt::Result {
        self.0.show(f)
    }
}

/// Parts with a comma and a space between each two.
#[derive(Clone, Copy)]
pub struct Separated<'a, S>(pub &'a [S]);

impl<S: Source> fmt::Display for Separated<'_, S> {
    ghost output = { λ s. Some (separated (map S.Source.text s.0.now)) };

    fn fmt<W: fmt::Write>(&self, f: &mut fmt::Formatter<W>) -> fmt::Result {
        for (i, part) in self.0.iter().enumerate() {
            show_comma(i, f)?;
            part.show(f)?;
        }
        Ok(())
    }
}

/// A comma and a space before every part but the first, the part 0.
pub(crate) fn show_comma<W: fmt::Write>(part: usize, f: &mut fmt::Formatter<W>) -> fmt::Result
    ensures { WritesOnOk W.Write.write_str_gives f.old result (comma_before part) f.new }
{
    f.write_str(if part == 0 { "" } else { ", " })
}

impl Source for Term {
    ghost text = { term_text };

    fn show<W: fmt::Write>(&self, f: &mut fmt::Formatter<W>) -> fmt::Result {
        match *self {
            Term::Value(value) => write!(f, "{value}"),
            Term::Slot(slot) => write!(f, "X{slot}"),
        }
    }
}

/// A primitive, with the sign that says that two terms are the same.
fn show_primitive<W: fmt::Write>(
    primitive: &Primitive<Term>,
    same: &str,
    f: &mut fmt::Formatter<W>,
) -> fmt::Result
    ensures { WritesOnOk W.Write.write_str_gives f.old result (primitive_text same.now primitive.now) f.new }
{
    match primitive {
        Primitive::Same(left, right) => write!(f, "{}{same}{}", Shown(left), Shown(right)),
        Primitive::Least(term, bound) => write!(f, "{} >= {bound}", Shown(term)),
        Primitive::Most(term, bound) => write!(f, "{} =< {bound}", Shown(term)),
    }
}

impl Source for Primitive<Term> {
    ghost text = { guard_text };

    fn show<W: fmt::Write>(&self, f: &mut fmt::Formatter<W>) -> fmt::Result {
        show_primitive(self, " == ", f)
    }
}

/// A constraint: its symbol, and its arguments in parentheses, where there are any.
#[derive(Clone, Copy)]
pub struct Constraint<'a> {
    pub symbol: u8,
    pub arguments: &'a [Term],
}

impl fmt::Display for Constraint<'_> {
    ghost output = { λ c. Some (constraint_text c.symbol c.arguments.now) };

    fn fmt<W: fmt::Write>(&self, f: &mut fmt::Formatter<W>) -> fmt::Result {
        if self.arguments.is_empty() {
            write!(f, "c{}", self.symbol)
        } else {
            write!(f, "c{}({})", self.symbol, Separated(self.arguments))
        }
    }
}

impl Source for Item {
    ghost text = { λ i. goal_text (goal_of i) };

    fn show<W: fmt::Write>(&self, f: &mut fmt::Formatter<W>) -> fmt::Result {
        match self {
            Item::Tell(primitive) => show_primitive(primitive, " = ", f),
            Item::Add { symbol, arguments } => {
                let constraint = Constraint {
                    symbol: *symbol,
                    arguments,
                };
                write!(f, "{constraint}")
            }
        }
    }
}
