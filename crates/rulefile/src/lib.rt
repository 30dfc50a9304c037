// Loaded rules: made from the bytes of a file alone, and written out as those bytes.
#![tactic(auto)]

ghost use Rattle.std.specs.Prelude.{◌≡◌, IfOk};
ghost use Rattle.rules.specs.Files.{file, Loaded, AcceptedExactly};
ghost use Rattle.rulefile.specs.Rulebooks.{rules_book, copy_book};

mod encode;
mod loaded;
mod parts;
mod refusal;
mod writer;

pub use loaded::Rules;
pub use refusal::WriteRefusal;
use rulereader::read_file;
use rules::LoadRefusal;
use std::alloc::Global;

/// The rules of a file, or the first refusal.
pub fn load(heap: Global, bytes: &[u8]) -> Result<Rules, LoadRefusal>
    ensures answer { Loaded rules_book (file bytes.now) result }
    ensures law { AcceptedExactly bytes.now }
    ensures unchanged { bytes.exit.now ≡ bytes.entry.now }
{
    let contents = read_file(heap, bytes)?;
    Ok(Rules::new(contents, bytes.len()))
}

/// The rules of a file, and the file as they are written out again, which is the file itself.
pub fn load_and_write(heap: Global, bytes: &[u8]) -> Result<(Rules, Vec<u8>), LoadRefusal>
    ensures answer { Loaded copy_book (file bytes.now) result }
    ensures again { IfOk result (λ c. c.1.items ≡ bytes.now) }
    ensures unchanged { bytes.exit.now ≡ bytes.entry.now }
{
    let rules = load(heap, bytes)?;
    let mut copy = vec![in heap; 0; rules.file_len()]?;
    // The copy has room for the whole file, so the write is not refused.
    let _ = rules.write(&mut copy);
    Ok((rules, copy))
}
