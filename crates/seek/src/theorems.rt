//! What is proved of the tuples that a rule fits: each function's contract is a theorem.

ghost use Rattle.seek.specs.Searches.{ReadsAlone};

use table::partner::PartnerTable;
use theory::interface::Theory;

/// Which tuples a rule fits, and which is the first, depends on the rules, the history, the theory and the table alone.
pub fn reads_alone<T: Theory, P: PartnerTable>() -> bool
    ensures { ReadsAlone T.Theory P.PartnerTable }
{
    true
}
