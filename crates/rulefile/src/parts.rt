// How numbers, terms, primitives, body items and rules are written.
ghost use Rattle.std.specs.Prelude.{ℕ, ◌≤◌, vec_len};
ghost use Rattle.rules.specs.Format.{number_bytes, term_bytes, primitive_bytes, goal_bytes, heads_bytes, rule_bytes};
ghost use Rattle.rules.specs.Views.{goal_of, rule_of};
ghost use Rattle.rulefile.specs.Fits.{TermFits, PrimitiveFits, ItemFits, RuleFits};
ghost use Rattle.rulefile.specs.Written.{Writes};

use crate::encode::Encode;
use crate::refusal::WriteRefusal;
use crate::writer::Writer;
use rules::{ADD_KIND, Item, PrimitiveKind, Rule, TermKind};
use terms::{Primitive, Term};

impl Encode for u8 {
    ghost fit = { λ _. Unit {0} };

    ghost encoding = { number_bytes };

    fn encode(&self, writer: &mut Writer<'_>) -> Result<(), WriteRefusal> {
        writer.number(u32::from(*self))
    }
}

impl Encode for Term {
    ghost fit = { TermFits };

    ghost encoding = { term_bytes };

    fn encode(&self, writer: &mut Writer<'_>) -> Result<(), WriteRefusal> {
        match *self {
            Term::Value(value) => {
                writer.number(TermKind::Value as u32)?;
                writer.value(value)
            }
            Term::Slot(slot) => {
                writer.number(TermKind::Slot as u32)?;
                slot.encode(writer)
            }
        }
    }
}

impl Encode for Primitive<Term> {
    ghost fit = { PrimitiveFits };

    ghost encoding = { primitive_bytes };

    fn encode(&self, writer: &mut Writer<'_>) -> Result<(), WriteRefusal> {
        match *self {
            Primitive::Same(left, right) => {
                writer.number(PrimitiveKind::Same as u32)?;
                left.encode(writer)?;
                right.encode(writer)
            }
            Primitive::Least(term, bound) => {
                writer.number(PrimitiveKind::Least as u32)?;
                term.encode(writer)?;
                writer.value(bound)
            }
            Primitive::Most(term, bound) => {
                writer.number(PrimitiveKind::Most as u32)?;
                term.encode(writer)?;
                writer.value(bound)
            }
        }
    }
}

impl Encode for Item {
    ghost fit = { ItemFits };

    ghost encoding = { λ i. goal_bytes (goal_of i) };

    fn encode(&self, writer: &mut Writer<'_>) -> Result<(), WriteRefusal> {
        match self {
            Item::Tell(primitive) => primitive.encode(writer),
            Item::Add { symbol, arguments } => {
                writer.number(ADD_KIND)?;
                symbol.encode(writer)?;
                writer.each(arguments)
            }
        }
    }
}

impl Encode for Rule {
    ghost fit = { RuleFits };

    ghost encoding = { λ r. rule_bytes (rule_of r) };

    fn encode(&self, writer: &mut Writer<'_>) -> Result<(), WriteRefusal> {
        encode_heads(self, writer)?;
        writer.counted(&self.guards)?;
        self.fresh.encode(writer)?;
        writer.counted(&self.body)
    }
}

/// How many heads are kept and how many removed, and the symbols of all.
fn encode_heads(rule: &Rule, writer: &mut Writer<'_>) -> Result<(), WriteRefusal>
    requires { vec_len rule.now.heads ≤ 32 }
    ensures { Writes (heads_bytes (rule_of rule.now)) writer.old result writer.new }
{
    writer.number(rule.kept_heads().len() as u32)?;
    writer.number(rule.removed_heads().len() as u32)?;
    writer.each(&rule.heads)
}
