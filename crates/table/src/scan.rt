ghost use Rattle.std.specs.Prelude.{◌≡◌, IfOk};
ghost use Rattle.table.specs.Rows.{look};
ghost use Rattle.table.specs.Tables.{nothing};
ghost use Rattle.table.specs.Looks.{look_fits, size_look};
ghost use Rattle.std.proofs.Common.{arith, rules};

use crate::partner::PartnerTable;
use crate::put::PutRefusal;
use crate::rows;
use crate::rows::Rows;
use std::alloc::{AllocError, Global};
use terms::Operand;

const ROWS: usize = 256;

/// A partner table of 256 rows that looks at each row.
#[derive(Drop)]
pub struct ScanTable {
    rows: Rows,
    ghost wide: { rows.limit ≡ 256 },
}

impl ScanTable {
    pub fn new(heap: Global) -> Result<ScanTable, AllocError>
        ensures { IfOk result (λ t. look t.rows.items.items ≡ nothing) }
    {
        Ok(ScanTable {
            rows: Rows::new(heap, ROWS)?,
        })
    }
}

// Other tables over rows answer by the same lines: one impl for all of them would clash with that of a front.
impl PartnerTable for ScanTable {
    ghost records = { λ t. look t.rows.items.items };

    ghost limit = { 256 };

    ghost some = { Prim.search rules };

    ghost few = { Prim.search rules };

    ghost fits = { λ t i. look_fits t.rows.items.items t.rows.ok.0 i };

    ghost within = { λ t. omega (arith, size_look t.rows.items.items t.rows.ok.0, t.rows.items.ok.0, t.rows.ok, t.wide) };

    fn capacity(&self) -> usize {
        ROWS
    }

    fn count(&self) -> usize {
        self.rows.count()
    }

    fn clear(&mut self) {
        self.rows.clear();
    }

    fn put(
        &mut self,
        identifier: u32,
        symbol: u8,
        arguments: &[Operand],
    ) -> Result<(), PutRefusal> {
        self.rows.put(identifier, symbol, arguments)
    }

    fn remove(&mut self, identifier: u32) -> bool {
        self.rows.remove(identifier).is_some()
    }

    fn next(&self, symbol: Option<u8>, key: Option<i32>, above: u32) -> Option<u32> {
        rows::next(self.rows.as_slice(), symbol, key, above)
    }

    fn symbol(&self, identifier: u32) -> Option<u8> {
        rows::symbol(self.rows.as_slice(), identifier)
    }

    fn argument(&self, identifier: u32, place: usize) -> Option<Operand> {
        rows::argument(self.rows.as_slice(), identifier, place)
    }
}
