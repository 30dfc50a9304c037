// The kinds that a rule file marks its parts with, each by a number.
ghost use Rattle.std.specs.Prelude.{ℕ, Some, Result};
ghost use Rattle.rules.specs.declared.kind.UnknownKind.{UnknownKind};
ghost use Rattle.rules.specs.Kinds.{term_kind_number, primitive_kind_number, item_kind_number, KindOf, unknown_kind_text};

use std::error::Error;
use std::fmt;

/// A number that stands for no kind.
#[derive(Clone, Copy, Debug, PartialEq, Eq)]
pub struct UnknownKind(pub u32);

impl fmt::Display for UnknownKind {
    ghost output = { λ e. Some (unknown_kind_text e) };

    fn fmt<W: fmt::Write>(&self, f: &mut fmt::Formatter<W>) -> fmt::Result {
        write!(f, "{} is no kind", self.0)
    }
}

impl Error for UnknownKind {}

/// A kind that is written as its number, from 0 to `most`.
pub trait Kind: TryFrom<u32, Error = UnknownKind> {
    ghost number: { Self → ℕ };

    ghost most: { ℕ };

    ghost exact: { (n : ℕ) (r : Result Self UnknownKind) → Self.try_from_gives n r → KindOf number most n r };
}

/// What an operand is.
#[derive(Clone, Copy, Debug, PartialEq, Eq)]
pub enum TermKind {
    Value = 0,
    Slot = 1,
}

impl TryFrom<u32> for TermKind {
    type Error = UnknownKind;

    ghost try_from_gives = { KindOf term_kind_number 1 };

    fn try_from(number: u32) -> Result<TermKind, UnknownKind> {
        match number {
            0 => Ok(TermKind::Value),
            1 => Ok(TermKind::Slot),
            _ => Err(UnknownKind(number)),
        }
    }
}

impl Kind for TermKind {
    ghost number = { term_kind_number };

    ghost most = { 1 };

    ghost exact = { λ _ _ h. h };
}

/// What a primitive says.
#[derive(Clone, Copy, Debug, PartialEq, Eq)]
pub enum PrimitiveKind {
    Same = 0,
    Least = 1,
    Most = 2,
}

impl TryFrom<u32> for PrimitiveKind {
    type Error = UnknownKind;

    ghost try_from_gives = { KindOf primitive_kind_number 2 };

    fn try_from(number: u32) -> Result<PrimitiveKind, UnknownKind> {
        match number {
            0 => Ok(PrimitiveKind::Same),
            1 => Ok(PrimitiveKind::Least),
            2 => Ok(PrimitiveKind::Most),
            _ => Err(UnknownKind(number)),
        }
    }
}

impl Kind for PrimitiveKind {
    ghost number = { primitive_kind_number };

    ghost most = { 2 };

    ghost exact = { λ _ _ h. h };
}

/// The number of `ItemKind::Add`.
// A constant: beside a variant that holds a kind there is no discriminant to cast.
pub const ADD_KIND: u32 = 3;

/// What a body item does.
#[derive(Clone, Copy, Debug, PartialEq, Eq)]
pub enum ItemKind {
    Tell(PrimitiveKind),
    Add,
}

impl TryFrom<u32> for ItemKind {
    type Error = UnknownKind;

    ghost try_from_gives = { KindOf item_kind_number 3 };

    fn try_from(number: u32) -> Result<ItemKind, UnknownKind> {
        match number {
            ADD_KIND => Ok(ItemKind::Add),
            _ => Ok(ItemKind::Tell(PrimitiveKind::try_from(number)?)),
        }
    }
}

impl Kind for ItemKind {
    ghost number = { item_kind_number };

    ghost most = { 3 };

    ghost exact = { λ _ _ h. h };
}
