//! A number as what a class holds.

ghost use Rattle.std.specs.Prelude.{pos, negsuc, ◌≤ℤ◌};

pub mod content;

/// A number that is a value.
#[derive(Clone, Copy)]
pub struct Number {
    value: i32,
    ghost ok: { (negsuc 999_999 ≤ℤ value) × (value ≤ℤ pos 1_000_000) },
}
