// Rules as data, and the codes that a rule file is made of.
#![tactic(auto)]

ghost use Rattle.std.specs.Prelude.{◌≡◌, ◌≤◌, [], ◌∷◌, length, Some, vec_len};
ghost use Rattle.rules.specs.Codes.{code_of, value_of};
ghost use Rattle.rules.specs.Examples.{ValuesWritten, LastZeroRefused};
ghost use Rattle.rules.specs.declared.LoadRefusal.TheVariants.{NoMemory};
ghost use Rattle.rules.specs.Refusals.{refusal_number, refusal_place, refusal_text};
ghost use Rattle.rules.specs.Views.{rule_of};

mod kind;
mod signature;

pub use kind::{ADD_KIND, ItemKind, Kind, PrimitiveKind, TermKind, UnknownKind};
pub use signature::Signature;
use std::alloc::AllocError;
use std::error::Error;
use std::fmt;
use terms::{Primitive, Term};

/// The four bytes that a rule file starts with.
pub const MARK: [u8; 4] = *b"CHR1";

/// What a rule's body does: tells a primitive, or adds a constraint.
#[derive(Drop)]
pub enum Item {
    Tell(Primitive<Term>),
    Add { symbol: u8, arguments: Vec<Term> },
}

/// A rule: the symbols of its heads, of which the first `kept` are kept and the others removed,
/// its guards, how many fresh variables it makes, and its body.
#[derive(Drop)]
pub struct Rule {
    pub kept: u8,
    pub heads: Vec<u8>,
    pub guards: Vec<Primitive<Term>>,
    pub fresh: u8,
    pub body: Vec<Item>,
}

impl Rule {
    /// The symbols of the kept heads.
    pub fn kept_heads(&self) -> &[u8]
        ensures value { result.now ≡ (rule_of self.now).kept }
        ensures bound { length result.now ≤ vec_len self.now.heads }
    {
        let kept = self.heads.len().min(self.kept as usize);
        &self.heads[..kept]
    }

    /// The symbols of the removed heads.
    pub fn removed_heads(&self) -> &[u8]
        ensures value { result.now ≡ (rule_of self.now).removed }
        ensures bound { length result.now ≤ vec_len self.now.heads }
    {
        let start = self.heads.len().min(self.kept as usize);
        &self.heads[start..]
    }
}

/// Why a file was not loaded. A place is the offset at which the number at fault begins.
#[derive(Clone, Copy, Debug, PartialEq)]
pub enum LoadRefusal {
    /// Over 4,096 bytes.
    TooLong,
    /// The first four bytes differ or lack.
    Foreign,
    /// The file ends before or in a number that is due; the place is the file's length.
    Ended(usize),
    /// A third byte with the top bit, or a last byte 0 after others.
    Malformed(usize),
    /// A count, kind or value outside its range.
    OutOfRange(usize),
    /// A symbol or slot that is not there.
    Absent(usize),
    /// Bytes left over; the place is the first of them.
    Trailing(usize),
    /// There was no memory for the rules.
    NoMemory,
}

impl From<AllocError> for LoadRefusal {
    ghost from_gives = { λ _ r. r ≡ NoMemory };

    fn from(_: AllocError) -> LoadRefusal {
        LoadRefusal::NoMemory
    }
}

impl LoadRefusal {
    /// The number of a refusal, from 1 to 7; want of memory has none.
    pub fn number(self) -> Option<u8>
        ensures { result ≡ refusal_number self }
    {
        // No discriminants: variants that hold a place have none to cast.
        match self {
            LoadRefusal::TooLong => Some(1),
            LoadRefusal::Foreign => Some(2),
            LoadRefusal::Ended(_) => Some(3),
            LoadRefusal::Malformed(_) => Some(4),
            LoadRefusal::OutOfRange(_) => Some(5),
            LoadRefusal::Absent(_) => Some(6),
            LoadRefusal::Trailing(_) => Some(7),
            LoadRefusal::NoMemory => None,
        }
    }

    /// Where the fault lies in the file; want of memory has no place.
    pub fn place(self) -> Option<usize>
        ensures { result ≡ refusal_place self }
    {
        match self {
            LoadRefusal::TooLong | LoadRefusal::Foreign => Some(0),
            LoadRefusal::Ended(place)
            | LoadRefusal::Malformed(place)
            | LoadRefusal::OutOfRange(place)
            | LoadRefusal::Absent(place)
            | LoadRefusal::Trailing(place) => Some(place),
            LoadRefusal::NoMemory => None,
        }
    }
}

impl fmt::Display for LoadRefusal {
    ghost output = { λ e. Some (refusal_text e) };

    fn fmt<W: fmt::Write>(&self, f: &mut fmt::Formatter<W>) -> fmt::Result {
        match (self.number(), self.place()) {
            (Some(number), Some(place)) => write!(f, "{number} {place}"),
            _ => f.write_str("no memory"),
        }
    }
}

impl Error for LoadRefusal {}

/// The number that a value is written as: twice the value, or one less than twice its opposite when negative.
pub fn value_code(value: i32) -> u32
    ensures { result ≡ code_of value }
{
    if value >= 0 {
        2 * value as u32
    } else {
        2 * (-(value + 1)) as u32 + 1
    }
}

/// The value that a number is the code of.
pub fn code_value(code: u32) -> i32
    ensures { result ≡ value_of code }
{
    let half = (code / 2) as i32;
    if code % 2 == 0 { half } else { -1 - half }
}

/// The codes of 0, −1, 64 and −64, each a byte or two in a file.
pub fn example_codes() -> [u32; 4]
    ensures codes { result ≡ 0 ∷ 1 ∷ 128 ∷ 127 ∷ [] }
    ensures bytes { ValuesWritten }
    ensures refused { LastZeroRefused }
{
    [0, -1, 64, -64].map(value_code)
}
