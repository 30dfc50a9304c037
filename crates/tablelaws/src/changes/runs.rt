ghost use Rattle.std.specs.Prelude.{◌≡◌, true, ◌&&◌};
ghost use Rattle.table.specs.Tables.{nothing};
ghost use Rattle.tablelaws.specs.Changes.{changed, changed_all, finds_room, all_find_room, AtMostOne, NextAlike};

use super::Change;
use table::partner::PartnerTable;
use table::put::PutRefusal;

/// Makes a change, and says whether it was no put that was answered full.
fn make<P: PartnerTable>(table: &mut P, change: &Change) -> bool
    ensures value { result ≡ finds_room P.PartnerTable.limit change.now (P.PartnerTable.records table.old) }
    ensures after { P.PartnerTable.records table.new ≡ changed P.PartnerTable.limit change.now (P.PartnerTable.records table.old) }
{
    match change {
        Change::Clear => {
            table.clear();
            true
        }
        Change::Put(identifier, symbol, arguments) => {
            table.put(*identifier, *symbol, arguments.as_slice()) != Err(PutRefusal::Full)
        }
        Change::Remove(identifier) => {
            let _ = table.remove(*identifier);
            true
        }
    }
}

/// Clears a table and makes the changes in order; says whether no put was answered full.
/// After any changes at most one record stands under each identifier.
pub fn perform<P: PartnerTable>(table: &mut P, changes: &[Change]) -> bool
    ensures value { result ≡ all_find_room P.PartnerTable.limit changes.now nothing }
    ensures after { P.PartnerTable.records table.new ≡ changed_all P.PartnerTable.limit changes.now nothing }
    ensures single { AtMostOne (P.PartnerTable.records table.new) }
{
    table.clear();
    let mut roomy = true;
    for change in changes {
        roomy &= make(table, change);
    }
    roomy
}

/// Clears two tables and makes the same changes in both; says whether no put was answered full by either.
/// If none was, both answer every `next` alike.
pub fn alike<P: PartnerTable, Q: PartnerTable>(
    one: &mut P,
    other: &mut Q,
    changes: &[Change],
) -> bool
    ensures value { result ≡ (all_find_room P.PartnerTable.limit changes.now nothing && all_find_room Q.PartnerTable.limit changes.now nothing) }
    ensures one { P.PartnerTable.records one.new ≡ changed_all P.PartnerTable.limit changes.now nothing }
    ensures other { Q.PartnerTable.records other.new ≡ changed_all Q.PartnerTable.limit changes.now nothing }
    ensures nexts { result ≡ true → NextAlike (P.PartnerTable.records one.new) (Q.PartnerTable.records other.new) }
{
    let in_one = perform(one, changes);
    let in_other = perform(other, changes);
    in_one & in_other
}
