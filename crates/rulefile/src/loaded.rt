// Rules that were loaded.
ghost use Rattle.std.specs.Prelude.{◌≡◌, length};
ghost use Rattle.rules.specs.Format.{file_bytes};
ghost use Rattle.rules.specs.Valids.{Valid};
ghost use Rattle.rules.specs.Views.{book_of};

mod output;
mod parts;

use rules::Rule;

/// The rules of a file, with the length of the file. Only a load makes them, so they are valid.
#[derive(Drop)]
pub struct Rules {
    arities: Vec<u8>,
    rules: Vec<Rule>,
    size: usize,
    ghost valid: { ∥ Valid (book_of arities.items rules.items) ∥₁ },
    ghost sized: { size ≡ length (file_bytes (book_of arities.items rules.items)) },
}
