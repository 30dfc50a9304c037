#![tactic(auto)]

ghost use Rattle.std.specs.Prelude.{◌≡◌, ◌<◌, ◌≤◌, map, IfOk, Some, vec_len, vec_capacity};
ghost use Rattle.chain.specs.Chains.{To, Linked, Stands, Before, relinked, shifted};
ghost use Rattle.table.specs.Nexts.{NextOf};
ghost use Rattle.table.specs.Rows.{look};
ghost use Rattle.table.specs.Tables.{nothing};
ghost use Rattle.table.specs.Looks.{look_fits, size_look};
ghost use Rattle.std.proofs.Common.{arith, rules};

mod walk;

use self::walk::Chain;
use std::alloc::{AllocError, Global};
use table::partner::PartnerTable;
use table::put::PutRefusal;
use table::row::Row;
use table::rows;
use table::rows::{Rows, SYMBOLS};
use terms::Operand;

const ROWS: usize = 256;

/// A partner table of 256 rows, those of each symbol linked by rising identifier.
// Links are places, since nothing is allocated after opening, and lie beside the rows, since the rows of other tables have none.
#[derive(Drop)]
pub struct ChainTable {
    rows: Rows,
    /// The place of the next row of the same symbol, for each row.
    links: Vec<Option<usize>>,
    /// The place of the first row of each symbol.
    heads: [Option<usize>; SYMBOLS],
    ghost wide: { (rows.limit ≡ 256) × (256 ≤ vec_capacity links) },
    ghost linked: { ∥ Linked rows.items.items links.items heads ∥₁ },
}

impl ChainTable {
    pub fn new(heap: Global) -> Result<ChainTable, AllocError>
        ensures { IfOk result (λ t. look t.rows.items.items ≡ nothing) }
    {
        Ok(ChainTable {
            rows: Rows::new(heap, ROWS)?,
            links: Vec::with_capacity(heap, ROWS)?,
            heads: [None; SYMBOLS],
        })
    }

    /// The place of the first row of a symbol.
    fn head(&self, symbol: u8) -> Option<usize>
        ensures { To self.now.rows.items.items result symbol 0 }
    {
        *self.heads.get(symbol as usize)?
    }

    /// The chain of a symbol.
    fn chain(&self, symbol: u8) -> Chain<'_>
        ensures table { result.table.now ≡ self.now }
        ensures head { To self.now.rows.items.items result.at symbol 0 }
    {
        Chain {
            table: self,
            at: self.head(symbol),
        }
    }

    /// The row at a place, and the place of the next row of its symbol.
    fn stand(&self, place: usize) -> (Row, Option<usize>)
        requires { place < vec_len self.now.rows.items }
        ensures { Stands self.now.rows.items.items place result.0 result.1 }
    {
        (self.rows.as_slice()[place], self.links[place])
    }

    /// The next of a symbol, along its chain.
    fn next_of(&self, symbol: u8, key: Option<i32>, above: u32) -> Option<u32>
        ensures { NextOf (look self.now.rows.items.items) (Some symbol) key above result }
    {
        for (_, row) in self.chain(symbol) {
            let identifier = row.identifier();
            if identifier > above && row.answers(None, key) {
                return Some(identifier);
            }
        }
        None
    }

    /// The place of the last row of a symbol below an identifier.
    fn before(&self, symbol: u8, identifier: u32) -> Option<usize>
        ensures { Before self.now.rows.items.items symbol identifier result }
    {
        let mut last = None;
        for (place, row) in self.chain(symbol) {
            if row.identifier() >= identifier {
                break;
            }
            last = Some(place);
        }
        last
    }
}

impl PartnerTable for ChainTable {
    ghost records = { λ t. look t.rows.items.items };

    ghost limit = { 256 };

    ghost some = { Prim.search rules };

    ghost few = { Prim.search rules };

    ghost fits = { λ t i. look_fits t.rows.items.items t.rows.ok.0 i };

    ghost within = { λ t. omega (arith, size_look t.rows.items.items t.rows.ok.0, t.rows.items.ok.0, t.rows.ok, t.wide) };

    fn capacity(&self) -> usize {
        ROWS
    }

    fn count(&self) -> usize {
        self.rows.count()
    }

    fn clear(&mut self) {
        self.rows.clear();
        self.links.clear();
        self.heads = [None; SYMBOLS];
    }

    fn put(
        &mut self,
        identifier: u32,
        symbol: u8,
        arguments: &[Operand],
    ) -> Result<(), PutRefusal> {
        let place = self.count();
        let last = self.before(symbol, identifier);
        self.rows.put(identifier, symbol, arguments)?;
        let rest = match last {
            Some(before) => self.links[before].replace(place),
            None => self.heads[symbol as usize].replace(place),
        };
        self.links.push_reserved(rest);
        Ok(())
    }

    fn remove(&mut self, identifier: u32) -> bool {
        let Some(place) = self.rows.remove(identifier) else {
            return false;
        };
        let rest = self.links.remove(place);
        relink(self.links.as_mut_slice(), place, rest);
        relink(&mut self.heads, place, rest);
        true
    }

    fn next(&self, symbol: Option<u8>, key: Option<i32>, above: u32) -> Option<u32> {
        match symbol {
            Some(symbol) => self.next_of(symbol, key, above),
            None => rows::next(self.rows.as_slice(), None, key, above),
        }
    }

    fn symbol(&self, identifier: u32) -> Option<u8> {
        rows::symbol(self.rows.as_slice(), identifier)
    }

    fn argument(&self, identifier: u32, place: usize) -> Option<Operand> {
        rows::argument(self.rows.as_slice(), identifier, place)
    }
}

/// Makes each link what it is after the row at a place, with the link `rest`, went.
fn relink(links: &mut [Option<usize>], place: usize, rest: Option<usize>)
    ensures { links.new ≡ map (relinked place rest) links.old }
{
    for link in links.iter_mut() {
        *link = relinked(*link, place, rest);
    }
}

fn relinked(link: Option<usize>, place: usize, rest: Option<usize>) -> Option<usize>
    ensures { result ≡ relinked place rest link }
{
    shifted(if link == Some(place) { rest } else { link }, place)
}

fn shifted(link: Option<usize>, place: usize) -> Option<usize>
    ensures { result ≡ shifted place link }
{
    link.map(|to| if to > place { to - 1 } else { to })
}
