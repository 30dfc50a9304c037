// A partner table with a few rows of its own before another partner table.
#![tactic(auto)]

ghost use Rattle.std.specs.Prelude.{◌≡◌, true, take, IfOk};
ghost use Rattle.front.specs.Fronts.{own_limit, front_limit, own_records, front_records, OwnFirst};
ghost use Rattle.table.specs.Records.{recorded, fit};
ghost use Rattle.table.specs.Tables.{nothing, size, put_answer, put_after};
ghost use Rattle.table.specs.Rows.{look};
ghost use Rattle.table.specs.Looks.{look_fits, lawful_take, size_look};
ghost use Rattle.front.specs.FrontsLemmas.{all_append};
ghost use Rattle.std.proofs.Common.{arith, rules};
ghost use Rattle.std.proofs.lemmas.List.{length-take};
ghost use Rattle.table.specs.TablesLemmas.{size_both};

use std::alloc::{AllocError, Global};
use table::partner::PartnerTable;
use table::put::PutRefusal;
use table::row::Row;
use table::rows;
use table::rows::Rows;
use terms::Operand;

/// The most rows that a front has of its own.
const OWN: usize = 32;

/// The most records that a partner table holds.
const MOST: usize = 4_096;

/// A partner table of 32 rows before another, or fewer where the two would pass 4,096. It fills its own rows first.
// No row is ever put past its own, but the type does not say so: a ghost field that cites the table behind needs a bound on `P`, here and then in each generic type over a front.
#[derive(Drop)]
pub struct FrontTable<P> {
    /// Its own rows are the first of these, as many as it has.
    own: Rows,
    behind: P,
    ghost wide: { own.limit ≡ 32 },
}

impl<P: PartnerTable + Drop> FrontTable<P> {
    /// A front with nothing in its own rows, before a table with whatever is in it.
    pub fn new(heap: Global, behind: P) -> Result<FrontTable<P>, AllocError>
        ensures { IfOk result (λ t. (own_records P.PartnerTable.limit t.own.items.items ≡ nothing) × (t.behind ≡ behind)) }
    {
        Ok(FrontTable {
            own: Rows::new(heap, OWN)?,
            behind,
        })
    }
}

impl<P: PartnerTable> FrontTable<P> {
    /// How many rows of its own it has.
    pub fn own_capacity(&self) -> usize
        ensures { result ≡ own_limit P.PartnerTable.limit }
    {
        self.own.limit().min(MOST - self.behind.capacity())
    }

    /// How many of its own rows are in use.
    pub fn own_count(&self) -> usize
        ensures { result ≡ size (own_records P.PartnerTable.limit self.now.own.items.items) }
    {
        self.own_rows().len()
    }

    /// Its own rows that are in use.
    fn own_rows(&self) -> &[Row]
        ensures { result.now ≡ take (own_limit P.PartnerTable.limit) self.now.own.items.items }
    {
        let rows = self.own.as_slice();
        &rows[..self.own_capacity().min(rows.len())]
    }

    /// Adds a record as `put` does: to its own rows while one is free, else to the table behind.
    pub fn put_own_first(
        &mut self,
        identifier: u32,
        symbol: u8,
        arguments: &[Operand],
    ) -> Result<(), PutRefusal>
        ensures value { result ≡ put_answer (⟦<FrontTable<P> as PartnerTable>⟧.records self.old) ⟦<FrontTable<P> as PartnerTable>⟧.limit identifier (recorded symbol arguments.now) }
        ensures after { ⟦<FrontTable<P> as PartnerTable>⟧.records self.new ≡ put_after (⟦<FrontTable<P> as PartnerTable>⟧.records self.old) identifier (recorded symbol arguments.now) result }
        ensures order { OwnFirst P.PartnerTable.limit (own_records P.PartnerTable.limit self.old.own.items.items) (P.PartnerTable.records self.old.behind) (own_records P.PartnerTable.limit self.new.own.items.items) (P.PartnerTable.records self.new.behind) identifier (recorded symbol arguments.now) result }
    {
        let known = rows::position(self.own_rows(), identifier).is_some();
        let elsewhere = self.behind.symbol(identifier).is_some();
        let free = self.own_count() < self.own_capacity();
        if known || (free && !elsewhere) {
            self.own.put(identifier, symbol, arguments)
        } else {
            self.behind.put(identifier, symbol, arguments)
        }
    }
}

impl<P: PartnerTable> PartnerTable for FrontTable<P> {
    ghost records = { λ t. front_records P.PartnerTable.limit t.own.items.items (P.PartnerTable.records t.behind) };

    ghost limit = { front_limit P.PartnerTable.limit };

    ghost some = { Prim.search rules };

    ghost few = { Prim.search rules };

    ghost fits = { λ t i.
        let k = own_limit P.PartnerTable.limit in
        all_append (λ r. fit i r ≡ true) (look (take k t.own.items.items) i) (P.PartnerTable.records t.behind i)
        (look_fits (take k t.own.items.items) (lawful_take t.own.items.items k t.own.ok.0) i)
        (P.PartnerTable.fits t.behind i) };

    ghost within = { λ t.
        let k = own_limit P.PartnerTable.limit in
        let xs = t.own.items.items in
        omega (arith, size_both (look (take k xs)) (P.PartnerTable.records t.behind), size_look (take k xs) (lawful_take xs k t.own.ok.0), length-take k xs, P.PartnerTable.within t.behind) };

    fn capacity(&self) -> usize {
        self.own_capacity() + self.behind.capacity()
    }

    fn count(&self) -> usize {
        self.own_count() + self.behind.count()
    }

    fn clear(&mut self) {
        self.own.clear();
        self.behind.clear();
    }

    fn put(
        &mut self,
        identifier: u32,
        symbol: u8,
        arguments: &[Operand],
    ) -> Result<(), PutRefusal> {
        self.put_own_first(identifier, symbol, arguments)
    }

    fn remove(&mut self, identifier: u32) -> bool {
        let count = self.own_capacity();
        self.own.truncate(count);
        let own = self.own.remove(identifier).is_some();
        let behind = self.behind.remove(identifier);
        own | behind
    }

    fn next(&self, symbol: Option<u8>, key: Option<i32>, above: u32) -> Option<u32> {
        let own = rows::next(self.own_rows(), symbol, key, above);
        let behind = self.behind.next(symbol, key, above);
        rows::lower(own, behind)
    }

    fn symbol(&self, identifier: u32) -> Option<u8> {
        rows::symbol(self.own_rows(), identifier).or_else(|| self.behind.symbol(identifier))
    }

    fn argument(&self, identifier: u32, place: usize) -> Option<Operand> {
        let rows = self.own_rows();
        if rows::position(rows, identifier).is_some() {
            rows::argument(rows, identifier, place)
        } else {
            self.behind.argument(identifier, place)
        }
    }
}
