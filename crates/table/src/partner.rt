ghost use Rattle.std.specs.Prelude.{◌≡◌, ℕ, ◌≤◌, true, not, [], ◌∷◌};
ghost use Rattle.table.specs.Lists.{is_none, first};
ghost use Rattle.table.specs.Nexts.{NextOf};
ghost use Rattle.table.specs.Records.{recorded, fit, symbol_of, argument_of};
ghost use Rattle.table.specs.Tables.{Table, nothing, size, without, put_answer, put_after};
ghost use Rattle.terms.specs.Lists.{All};

use crate::put::PutRefusal;
use terms::Operand;

/// A set of records, each under an identifier, with a symbol and up to four arguments.
// `put` and `next` take the parts of a record one by one, as docs/tables.md lays down.
pub trait PartnerTable {
    /// The records under each identifier.
    ghost records: { Self → Table };

    /// The most records that it holds.
    ghost limit: { ℕ };

    /// The most records that it holds.
    fn capacity(&self) -> usize
        ensures { result ≡ limit };

    /// How many records it holds.
    fn count(&self) -> usize
        ensures { result ≡ size (records self.now) };

    /// Takes all records out.
    fn clear(&mut self)
        ensures { records self.new ≡ nothing };

    /// Adds a record, if it is one, if none stands under the identifier, and if there is room.
    fn put(&mut self, identifier: u32, symbol: u8, arguments: &[Operand]) -> Result<(), PutRefusal>
        ensures value { result ≡ put_answer (records self.old) limit identifier (recorded symbol arguments.now) }
        ensures after { records self.new ≡ put_after (records self.old) identifier (recorded symbol arguments.now) result };

    /// Takes out what stands under the identifier, and says whether anything did.
    fn remove(&mut self, identifier: u32) -> bool
        ensures value { result ≡ not (is_none (records self.old identifier)) }
        ensures after { records self.new ≡ without (records self.old) (identifier ∷ []) };

    /// The least identifier above `above` whose record has the symbol and a key that is the value or open; none given restricts nothing.
    fn next(&self, symbol: Option<u8>, key: Option<i32>, above: u32) -> Option<u32>
        ensures { NextOf (records self.now) symbol key above result };

    /// The symbol of the identifier's record.
    fn symbol(&self, identifier: u32) -> Option<u8>
        ensures { result ≡ symbol_of (first (records self.now identifier)) };

    /// The argument of the identifier's record at a place, counted from 0.
    fn argument(&self, identifier: u32, place: usize) -> Option<Operand>
        ensures { result ≡ argument_of (first (records self.now identifier)) place };

    ghost some: { 1 ≤ limit };

    ghost few: { limit ≤ 4096 };

    ghost fits: { (t : Self) (i : ℕ) → All (λ r. fit i r ≡ true) (records t i) };

    ghost within: { (t : Self) → size (records t) ≤ limit };
}
