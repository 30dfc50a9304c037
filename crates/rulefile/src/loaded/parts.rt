// How rules are made, and what they are made of.
ghost use Rattle.std.specs.Prelude.{◌≡◌, map, length};
ghost use Rattle.rules.specs.Format.{file_bytes};
ghost use Rattle.rules.specs.Valids.{Valid};
ghost use Rattle.rules.specs.Views.{rule_of};
ghost use Rattle.rulereader.specs.Contents.{contents_book};
ghost use Rattle.rulefile.specs.Rulebooks.{rules_book};

use crate::loaded::Rules;
use rulereader::FileContents;
use rules::{Rule, Signature};

impl Rules {
    /// The rules that a file holds.
    pub(crate) fn new(contents: FileContents, size: usize) -> Rules
        requires valid { Valid (contents_book contents) }
        requires sized { size ≡ length (file_bytes (contents_book contents)) }
        ensures { rules_book result ≡ contents_book contents }
    {
        let FileContents { arities, rules } = contents;
        Rules {
            arities,
            rules,
            size,
        }
    }

    /// The rules, from the first to the last.
    pub fn rules(&self) -> &[Rule]
        ensures value { map rule_of result.now ≡ (rules_book self.now).rules }
        ensures valid { Valid (rules_book self.now) }
    {
        &self.rules
    }

    /// The symbols that the file declares.
    pub fn signature(&self) -> Signature<'_>
        ensures value { result.arities.now ≡ (rules_book self.now).arities }
        ensures valid { Valid (rules_book self.now) }
    {
        Signature {
            arities: &self.arities,
        }
    }
}
