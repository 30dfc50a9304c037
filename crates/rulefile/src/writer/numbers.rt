// Writes bytes, numbers and values.
ghost use Rattle.std.specs.Prelude.{◌<◌};
ghost use Rattle.terms.specs.Values.{IsValue};
ghost use Rattle.rules.specs.Format.{number_bytes, value_bytes};
ghost use Rattle.rulefile.specs.Written.{Writes, one};

use crate::refusal::WriteRefusal;
use crate::writer::Writer;
use rules::value_code;

impl Writer<'_> {
    /// A byte.
    pub(crate) fn byte(&mut self, b: u8) -> Result<(), WriteRefusal>
        ensures { Writes (one b) self.old result self.new }
    {
        // Not by `get_mut`: after it a proof knows the slice's length and not its bytes.
        if self.pos >= self.dst.len() {
            return Err(WriteRefusal::ShortBuffer);
        }
        self.dst[self.pos] = b;
        self.pos += 1;
        Ok(())
    }

    /// A number: one to three bytes of seven bits each, lowest first.
    pub(crate) fn number(&mut self, n: u32) -> Result<(), WriteRefusal>
        requires { n < 2_097_152 }
        ensures { Writes (number_bytes n) self.old result self.new }
    {
        if n < 128 {
            return self.byte(n as u8);
        }
        self.byte((n % 128 + 128) as u8)?;
        if n < 16_384 {
            return self.byte((n / 128) as u8);
        }
        self.byte((n / 128 % 128 + 128) as u8)?;
        self.byte((n / 16_384) as u8)
    }

    /// A value, by its code.
    pub(crate) fn value(&mut self, value: i32) -> Result<(), WriteRefusal>
        requires { IsValue value }
        ensures { Writes (value_bytes value) self.old result self.new }
    {
        self.number(value_code(value))
    }
}
