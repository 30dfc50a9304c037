//! What a call answers, as a line.

use std::fmt;
use theory::told::Told;

/// What a call answered.
#[derive(Clone, Copy)]
pub enum Answer {
    Cleared,
    /// The variable made, if there was room.
    Made(Option<u8>),
    Number(usize),
    Truth(bool),
    /// The least and the greatest value, if there are.
    Ends(Option<(i32, i32)>),
    Told(Told),
}

impl fmt::Display for Answer {
    fn fmt<W: fmt::Write>(&self, f: &mut fmt::Formatter<W>) -> fmt::Result {
        match self {
            Answer::Cleared => f.write_str("cleared"),
            Answer::Made(Some(x)) => write!(f, "{x}"),
            Answer::Made(None) => f.write_str("full"),
            Answer::Number(n) => write!(f, "{n}"),
            Answer::Truth(true) => f.write_str("yes"),
            Answer::Truth(false) => f.write_str("no"),
            Answer::Ends(Some((low, high))) => write!(f, "{low}..{high}"),
            Answer::Ends(None) => f.write_str("none"),
            Answer::Told(told) => write!(f, "{told}"),
        }
    }
}
