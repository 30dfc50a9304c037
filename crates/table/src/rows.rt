ghost use Rattle.std.specs.Prelude.{◌≡◌, ◌≤◌, true, [], ◌∷◌, take, IfOk, vec_len, vec_capacity};
ghost use Rattle.table.specs.Lists.{first};
ghost use Rattle.table.specs.Nexts.{NextOf, lower};
ghost use Rattle.table.specs.Records.{fitting, all_fitting, fit, recorded, symbol_of, argument_of};
ghost use Rattle.table.specs.Rows.{look, lawful, Position, Placed, TakenOut};
ghost use Rattle.table.specs.Tables.{size, without, put_answer, put_after};

use crate::put::PutRefusal;
use crate::row::{PLACES, Row};
use std::alloc::{AllocError, Global};
use terms::{Operand, is_value};

/// How many symbols there are.
pub const SYMBOLS: usize = 32;

/// The greatest identifier.
pub const GREATEST_IDENTIFIER: u32 = 1_000_000;

/// At most `limit` rows, in any order, no two with one identifier; there is memory for all from the start.
#[derive(Drop)]
pub struct Rows {
    items: Vec<Row>,
    // A field and no const parameter: a caller may know the limit at run time only.
    limit: usize,
    ghost ok: { (lawful items.items ≡ true) × (vec_len items ≤ limit) × (limit ≤ vec_capacity items) },
}

impl Rows {
    pub fn new(heap: Global, limit: usize) -> Result<Rows, AllocError>
        ensures { IfOk result (λ v. (v.items.items ≡ []) × (v.limit ≡ limit)) }
    {
        Ok(Rows {
            items: Vec::with_capacity(heap, limit)?,
            limit,
        })
    }

    pub fn as_slice(&self) -> &[Row]
        ensures { result.now ≡ self.now.items.items }
    {
        self.items.as_slice()
    }

    /// The most rows that it holds.
    pub fn limit(&self) -> usize
        ensures { result ≡ self.now.limit }
    {
        self.limit
    }

    pub fn count(&self) -> usize
        ensures { result ≡ size (look self.now.items.items) }
    {
        self.items.len()
    }

    pub fn clear(&mut self)
        ensures items { self.new.items.items ≡ [] }
        ensures limit { self.new.limit ≡ self.old.limit }
    {
        self.items.clear();
    }

    /// Adds a row at the end, if it is a record, if none has the identifier, and if there is room.
    pub fn put(
        &mut self,
        identifier: u32,
        symbol: u8,
        arguments: &[Operand],
    ) -> Result<(), PutRefusal>
        ensures value { result ≡ put_answer (look self.old.items.items) self.old.limit identifier (recorded symbol arguments.now) }
        ensures after { look self.new.items.items ≡ put_after (look self.old.items.items) identifier (recorded symbol arguments.now) result }
        ensures items { Placed self.old.items.items self.new.items.items identifier (recorded symbol arguments.now) result }
        ensures limit { self.new.limit ≡ self.old.limit }
    {
        let row = Row::new(identifier, symbol, arguments).ok_or(PutRefusal::Unfit)?;
        if position(self.as_slice(), identifier).is_some() {
            return Err(PutRefusal::Twice);
        }
        if self.count() >= self.limit {
            return Err(PutRefusal::Full);
        }
        self.items.push_reserved(row);
        Ok(())
    }

    /// Takes out the identifier's row and answers the place where it stood; the rows after it move down by one.
    pub fn remove(&mut self, identifier: u32) -> Option<usize>
        ensures place { TakenOut self.old.items.items self.new.items.items identifier result }
        ensures after { look self.new.items.items ≡ without (look self.old.items.items) (identifier ∷ []) }
        ensures limit { self.new.limit ≡ self.old.limit }
    {
        let place = position(self.as_slice(), identifier)?;
        let _ = self.items.remove(place);
        Some(place)
    }

    /// Leaves so many rows at most.
    pub fn truncate(&mut self, count: usize)
        ensures items { self.new.items.items ≡ take count self.old.items.items }
        ensures limit { self.new.limit ≡ self.old.limit }
    {
        self.items.truncate(count);
    }
}

/// The place of the first row of an identifier.
pub fn position(rows: &[Row], identifier: u32) -> Option<usize>
    ensures { Position rows.now identifier result }
{
    rows.iter().position(|row| row.identifier() == identifier)
}

/// The symbol of the first row of an identifier.
pub fn symbol(rows: &[Row], identifier: u32) -> Option<u8>
    ensures { result ≡ symbol_of (first (look rows.now identifier)) }
{
    let place = position(rows, identifier)?;
    Some(rows[place].symbol())
}

/// The argument at a place of the first row of an identifier.
pub fn argument(rows: &[Row], identifier: u32, place: usize) -> Option<Operand>
    ensures { result ≡ argument_of (first (look rows.now identifier)) place }
{
    let at = position(rows, identifier)?;
    rows[at].argument(place)
}

/// The least identifier above `above` of a row that has the symbol and a key that is the value or open.
pub fn next(rows: &[Row], symbol: Option<u8>, key: Option<i32>, above: u32) -> Option<u32>
    ensures { NextOf (look rows.now) symbol key above result }
{
    rows.iter()
        .filter(|row| row.identifier() > above && row.answers(symbol, key))
        .map(|row| row.identifier())
        .min()
}

/// The lower of two numbers, each of which may be absent.
pub fn lower(one: Option<u32>, other: Option<u32>) -> Option<u32>
    ensures { result ≡ lower one other }
{
    match (one, other) {
        (Some(m), Some(n)) => Some(m.min(n)),
        _ => one.or(other),
    }
}

pub(crate) fn is_fit(identifier: u32, symbol: u8, arguments: &[Operand]) -> bool
    ensures { result ≡ fit identifier (recorded symbol arguments.now) }
{
    (1..=GREATEST_IDENTIFIER).contains(&identifier)
        && (symbol as usize) < SYMBOLS
        && arguments.len() <= PLACES
        && all_fitting(arguments)
}

/// Whether each operand is a variable or a value; a number out of range is neither.
pub fn all_fitting(arguments: &[Operand]) -> bool
    ensures { result ≡ all_fitting arguments.now }
{
    arguments.iter().all(|operand| is_fitting(*operand))
}

fn is_fitting(operand: Operand) -> bool
    ensures { result ≡ fitting operand }
{
    match operand {
        Operand::Value(number) => is_value(number),
        Operand::Variable(_) => true,
    }
}
