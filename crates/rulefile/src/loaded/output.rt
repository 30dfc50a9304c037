// Rules are written out as the file they came from.
ghost use Rattle.std.specs.Prelude.{◌≡◌, length};
ghost use Rattle.rules.specs.Format.{file_bytes};
ghost use Rattle.rulefile.specs.Outputs.{WrittenOut};
ghost use Rattle.rulefile.specs.Rulebooks.{rules_book};
ghost use Rattle.rulefile.specs.Written.{Writes};

use crate::loaded::Rules;
use crate::refusal::WriteRefusal;
use crate::writer::Writer;
use rules::MARK;

impl Rules {
    /// The length of the file.
    pub fn file_len(&self) -> usize
        ensures { result ≡ length (file_bytes (rules_book self.now)) }
    {
        self.size
    }

    /// Writes the file to the start of `out` and answers its length, or refuses a buffer that is shorter.
    pub fn write(&self, out: &mut [u8]) -> Result<usize, WriteRefusal>
        ensures { WrittenOut (file_bytes (rules_book self.now)) out.old result out.new }
    {
        if out.len() < self.file_len() {
            return Err(WriteRefusal::ShortBuffer);
        }
        let mut writer = Writer { dst: out, pos: 0 };
        self.encode_file(&mut writer)?;
        Ok(writer.pos)
    }

    /// The four bytes, each below 128 and so a number of one byte, the argument counts and the rules.
    fn encode_file(&self, writer: &mut Writer<'_>) -> Result<(), WriteRefusal>
        ensures { Writes (file_bytes (rules_book self.now)) writer.old result writer.new }
    {
        writer.each(&MARK)?;
        writer.counted(&self.arities)?;
        writer.counted(&self.rules)
    }
}
