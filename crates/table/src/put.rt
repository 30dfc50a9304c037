ghost use Rattle.std.specs.Prelude.{Some};
ghost use Rattle.table.specs.Refusals.{refusal_text};

use std::error::Error;
use std::fmt;

/// Why a table did not take a record.
#[derive(Clone, Copy, Debug, PartialEq)]
pub enum PutRefusal {
    /// It is no record: its identifier, its symbol, the number of its arguments or a value is out of range.
    Unfit,
    /// A record stands under the identifier already.
    Twice,
    /// The table holds as many records as it can.
    Full,
}

impl fmt::Display for PutRefusal {
    ghost output = { λ r. Some (refusal_text r) };

    fn fmt<W: fmt::Write>(&self, f: &mut fmt::Formatter<W>) -> fmt::Result {
        f.write_str(match self {
            PutRefusal::Unfit => "unfit",
            PutRefusal::Twice => "twice",
            PutRefusal::Full => "full",
        })
    }
}

impl Error for PutRefusal {}
