// Reads a rule file, each byte once, up to the first refusal.
#![tactic(auto)]

ghost use Rattle.std.specs.Prelude.{◌≡◌};
ghost use Rattle.rules.specs.Files.{file, begins, Loaded};
ghost use Rattle.rules.specs.Format.{mark};
ghost use Rattle.rules.specs.Parse.{book};
ghost use Rattle.rulereader.specs.Contents.{contents_book};
ghost use Rattle.rulereader.specs.Reads.{Loads};

mod item;
mod reader;
mod rule;

use item::ArityPart;
use reader::Reader;
use rule::RulePart;
use rules::{LoadRefusal, MARK, Rule, Signature};
use std::alloc::Global;

/// The most bytes that a rule file has.
const LONGEST: usize = 4096;

/// What a rule file holds: the argument count of each symbol, and the rules.
#[derive(Drop)]
pub struct FileContents {
    pub arities: Vec<u8>,
    pub rules: Vec<Rule>,
}

/// What a file says, or the first refusal.
pub fn read_file(heap: Global, bytes: &[u8]) -> Result<FileContents, LoadRefusal>
    ensures { Loaded contents_book (file bytes.now) result }
{
    if bytes.len() > LONGEST {
        return Err(LoadRefusal::TooLong);
    }
    if !is_marked(bytes) {
        return Err(LoadRefusal::Foreign);
    }
    let mut reader = Reader::after_mark(bytes, heap);
    let contents = read_book(&mut reader)?;
    match reader.place_left() {
        Some(place) => Err(LoadRefusal::Trailing(place)),
        None => Ok(contents),
    }
}

/// Whether a file starts with the four bytes of a rule file.
fn is_marked(bytes: &[u8]) -> bool
    ensures { result ≡ begins mark bytes.now }
{
    bytes.starts_with(&MARK)
}

/// All that follows the four bytes.
fn read_book(reader: &mut Reader<'_>) -> Result<FileContents, LoadRefusal>
    ensures { Loads contents_book book reader.old result reader.new }
{
    let arities = reader.list(&ArityPart, 1..=32)?;
    let signature = Signature { arities: &arities };
    let rules = reader.list(&RulePart { signature }, 0..=32)?;
    Ok(FileContents { arities, rules })
}
