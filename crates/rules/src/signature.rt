// The symbols that a file declares.
ghost use Rattle.std.specs.Prelude.{ℕ, ◌≤◌, length, slice_index};

mod counts;

/// The argument counts of the symbols of a file, at most 32 of at most 4 each.
#[derive(Clone, Copy)]
pub struct Signature<'a> {
    pub arities: &'a [u8],
    ghost few: { length arities.now ≤ 32 },
    ghost short: { (c : ℕ) → slice_index arities.now c ≤ 4 },
}
