ghost use Rattle.std.specs.Prelude.{◌≡◌, IfOk};
ghost use Rattle.std.specs.Iterator.{at_most};
ghost use Rattle.tablelaws.specs.Steps.{StepsOn, left};
ghost use Rattle.tablelaws.specs.Visits.{Visited};

use std::alloc::{AllocError, Global};
use table::partner::PartnerTable;

/// A visit to the records of a table that have the symbol and a key that is the value or open, by rising identifier; none given restricts nothing.
#[derive(Drop)]
pub struct Identifiers<'a, P> {
    table: &'a P,
    symbol: Option<u8>,
    key: Option<i32>,
    /// The identifier that was reached.
    above: u32,
}

impl<'a, P: PartnerTable> Identifiers<'a, P> {
    /// A visit from the first such record on.
    pub fn of(table: &'a P, symbol: Option<u8>, key: Option<i32>) -> Identifiers<'a, P>
        ensures table { result.table.now ≡ table.now }
        ensures symbol { result.symbol ≡ symbol }
        ensures key { result.key ≡ key }
        ensures above { result.above ≡ 0 }
    {
        Identifiers {
            table,
            symbol,
            key,
            above: 0,
        }
    }
}

impl<'a, P: PartnerTable> Iterator for Identifiers<'a, P> {
    type Item = u32;

    ghost next_gives = { λ v r w. StepsOn P.PartnerTable v.table.now v.symbol v.key v.above r w.table.now w.symbol w.key w.above };

    ghost remaining = { λ v. at_most (left v.above) };

    fn next(&mut self) -> Option<u32> {
        let identifier = self.table.next(self.symbol, self.key, self.above)?;
        self.above = identifier;
        Some(identifier)
    }
}

/// The identifiers of the records that have the symbol and a key that is the value or open, in rising order; none given restricts nothing.
pub fn visit<P: PartnerTable>(
    heap: Global,
    table: &P,
    symbol: Option<u8>,
    key: Option<i32>,
) -> Result<Vec<u32>, AllocError>
    ensures { IfOk result (λ v. Visited (P.PartnerTable.records table.now) symbol key v.items) }
{
    let mut found = Vec::new(heap);
    for identifier in Identifiers::of(table, symbol, key) {
        found.push(identifier)?;
    }
    Ok(found)
}
