// Why rules were not written.
ghost use Rattle.std.specs.Prelude.{◌≡◌, Some, decimal};
ghost use Rattle.rulefile.specs.Refusals.{write_refusal_number};

use std::error::Error;
use std::fmt;

/// Why nothing was written.
#[derive(Clone, Copy, Debug, PartialEq)]
pub enum WriteRefusal {
    /// The buffer is shorter than the file.
    ShortBuffer = 31,
}

impl WriteRefusal {
    /// The number of the refusal.
    pub fn number(self) -> u8
        ensures { result ≡ write_refusal_number self }
    {
        self as u8
    }
}

impl fmt::Display for WriteRefusal {
    ghost output = { λ e. Some (decimal (write_refusal_number e)) };

    fn fmt<W: fmt::Write>(&self, f: &mut fmt::Formatter<W>) -> fmt::Result {
        write!(f, "{}", self.number())
    }
}

impl Error for WriteRefusal {}
