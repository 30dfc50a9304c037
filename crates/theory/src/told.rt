//! What a theory answers when it is told a primitive.

ghost use Rattle.std.specs.Prelude.{Some};
ghost use Rattle.theory.specs.Texts.{told_text};

use std::fmt;

/// Something is left, nothing is left, or what was told is not known.
// Three answers and no `Result`: two of them change the theory, and only the last is a refusal.
#[derive(Clone, Copy, Debug, PartialEq, Eq)]
pub enum Told {
    Kept,
    Failed,
    Unknown,
}

impl fmt::Display for Told {
    ghost output = { λ t. Some (told_text t) };

    fn fmt<W: fmt::Write>(&self, f: &mut fmt::Formatter<W>) -> fmt::Result {
        match self {
            Told::Kept => f.write_str("kept"),
            Told::Failed => f.write_str("failed"),
            Told::Unknown => f.write_str("unknown"),
        }
    }
}
