//! The fresh variables that a rule makes, and the constraints that it removes.

ghost use Rattle.std.specs.Prelude.{◌≡◌, ◌+◌, ◌≤◌};
ghost use Rattle.table.specs.Tables.{without};
ghost use Rattle.theory.specs.Meanings.{Made};

use table::partner::PartnerTable;
use theory::interface::Theory;

/// Makes so many variables, where there is room for all of them; at capacity no more are made.
pub fn make_all<T: Theory>(theory: &mut T, count: u8)
    ensures { (T.Theory.means theory.old).made + count ≤ T.Theory.capacity → Made (T.Theory.means theory.old) count (T.Theory.means theory.new) }
{
    for _made in 0..count {
        let _ = theory.make();
    }
}

/// Takes the records under those identifiers out of a table.
pub fn remove_all<P: PartnerTable>(table: &mut P, gone: &[u32])
    ensures { P.PartnerTable.records table.new ≡ without (P.PartnerTable.records table.old) gone.now }
{
    for identifier in gone {
        table.remove(*identifier);
    }
}
