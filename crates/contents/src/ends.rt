//! A range of values.

ghost use Rattle.std.specs.Prelude.{pos, negsuc, ◌≤ℤ◌};

pub mod content;

/// The values from `least` to `greatest`.
#[derive(Clone, Copy)]
pub struct Ends {
    least: i32,
    greatest: i32,
    ghost ok: { (negsuc 999_999 ≤ℤ least) × (least ≤ℤ greatest) × (greatest ≤ℤ pos 1_000_000) },
}
