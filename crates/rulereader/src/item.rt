// The parts that stand in rows: argument counts, head symbols, arguments, guards and body items.
ghost use Rattle.std.specs.Prelude.{ℕ, length};
ghost use Rattle.terms.specs.declared.Primitive.{Primitive};
ghost use Rattle.terms.specs.declared.Term.{Term};
ghost use Rattle.rules.specs.Books.{Goal};
ghost use Rattle.rules.specs.Parse.{ranged, index, term, guard, goal};
ghost use Rattle.rules.specs.Views.{goal_of};

use crate::reader::{Production, Reader};
use rules::{Item, ItemKind, LoadRefusal, Signature};
use terms::{Primitive, Term};

// Each part has a type of its own: the parser that its contract names is a ghost member, which a closure cannot carry.

/// The argument count of a symbol.
#[derive(Drop)]
pub struct ArityPart;

impl Production for ArityPart {
    type Part = u8;

    ghost Seen = { ℕ };

    ghost view = { λ n. n };

    ghost parser = { λ _. ranged 0 4 };

    fn read(&self, reader: &mut Reader<'_>) -> Result<u8, LoadRefusal> {
        let arity = reader.ranged(0..=4)?;
        Ok(arity as u8)
    }
}

/// The symbol of a head, one of `symbols`.
#[derive(Drop)]
pub struct HeadPart {
    pub symbols: u8,
}

impl Production for HeadPart {
    type Part = u8;

    ghost Seen = { ℕ };

    ghost view = { λ n. n };

    ghost parser = { λ p. index p.symbols };

    fn read(&self, reader: &mut Reader<'_>) -> Result<u8, LoadRefusal> {
        reader.index(self.symbols)
    }
}

/// An argument of a new constraint, over `slots` slots.
#[derive(Drop)]
pub struct ArgumentPart {
    pub slots: u8,
}

impl Production for ArgumentPart {
    type Part = Term;

    ghost Seen = { Term };

    ghost view = { λ t. t };

    ghost parser = { λ p. term p.slots };

    fn read(&self, reader: &mut Reader<'_>) -> Result<Term, LoadRefusal> {
        reader.term(self.slots)
    }
}

/// A guard over `slots` slots.
#[derive(Drop)]
pub struct GuardPart {
    pub slots: u8,
}

impl Production for GuardPart {
    type Part = Primitive<Term>;

    ghost Seen = { Primitive Term };

    ghost view = { λ p. p };

    ghost parser = { λ p. guard p.slots };

    fn read(&self, reader: &mut Reader<'_>) -> Result<Primitive<Term>, LoadRefusal> {
        reader.guard(self.slots)
    }
}

/// A body item over `slots` slots.
#[derive(Drop)]
pub struct ItemPart<'a> {
    pub signature: Signature<'a>,
    pub slots: u8,
}

impl<'a> Production for ItemPart<'a> {
    type Part = Item;

    ghost Seen = { Goal Term };

    ghost view = { goal_of };

    ghost parser = { λ p. goal p.signature.arities.now p.slots };

    fn read(&self, reader: &mut Reader<'_>) -> Result<Item, LoadRefusal> {
        match reader.kind()? {
            ItemKind::Tell(kind) => Ok(Item::Tell(reader.primitive(kind, self.slots)?)),
            ItemKind::Add => {
                let symbol = reader.index(self.signature.symbols())?;
                let count = self.signature.arity(symbol) as usize;
                let arguments = reader.parts(&ArgumentPart { slots: self.slots }, count)?;
                Ok(Item::Add { symbol, arguments })
            }
        }
    }
}
