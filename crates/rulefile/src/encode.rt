// What can be written into a rule file, alone, in a row or counted.
ghost use Rattle.std.specs.Prelude.{ℕ, ◌≤◌, List, length};
ghost use Rattle.terms.specs.Lists.{All};
ghost use Rattle.rules.specs.Format.{each, counted};
ghost use Rattle.rulefile.specs.Written.{Writes};

use crate::refusal::WriteRefusal;
use crate::writer::Writer;

/// A part of a rule file that can be written.
pub trait Encode {
    ghost fit: { Self → Type 0 };

    ghost encoding: { Self → List ℕ };

    fn encode(&self, writer: &mut Writer<'_>) -> Result<(), WriteRefusal>
        requires { fit self.now }
        ensures { Writes (encoding self.now) writer.old result writer.new };
}

impl Writer<'_> {
    /// Parts in a row.
    pub(crate) fn each<E: Encode>(&mut self, parts: &[E]) -> Result<(), WriteRefusal>
        requires { All E.Encode.fit parts.now }
        ensures { Writes (each E.Encode.encoding parts.now) self.old result self.new }
    {
        for part in parts {
            part.encode(self)?;
        }
        Ok(())
    }

    /// How many parts there are, and then each.
    pub(crate) fn counted<E: Encode>(&mut self, parts: &[E]) -> Result<(), WriteRefusal>
        requires few { length parts.now ≤ 32 }
        requires fits { All E.Encode.fit parts.now }
        ensures { Writes (counted E.Encode.encoding parts.now) self.old result self.new }
    {
        self.number(parts.len() as u32)?;
        self.each(parts)
    }
}
