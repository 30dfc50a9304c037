// Whole rules.
ghost use Rattle.rules.specs.Books.{Rule as RuleText};
ghost use Rattle.std.specs.Prelude.{◌≤◌, IfOk, vec_len};
ghost use Rattle.rules.specs.Parse.{rule, rule_rest};
ghost use Rattle.rules.specs.Views.{rule_of};
ghost use Rattle.rulereader.specs.Heads.{heads_view, rule_heads};
ghost use Rattle.rulereader.specs.Reads.{Loads};

use crate::item::{GuardPart, HeadPart, ItemPart};
use crate::reader::{Production, Reader};
use rules::{LoadRefusal, Rule, Signature};

/// A rule over the symbols of a file.
#[derive(Drop)]
pub struct RulePart<'a> {
    pub signature: Signature<'a>,
}

impl<'a> Production for RulePart<'a> {
    type Part = Rule;

    ghost Seen = { RuleText };

    ghost view = { rule_of };

    ghost parser = { λ p. rule p.signature.arities.now };

    fn read(&self, reader: &mut Reader<'_>) -> Result<Rule, LoadRefusal> {
        let (kept, heads) = self.read_heads(reader)?;
        self.read_rest(reader, kept, heads)
    }
}

impl RulePart<'_> {
    /// How many heads are kept, and the symbols of all.
    fn read_heads(&self, reader: &mut Reader<'_>) -> Result<(u8, Vec<u8>), LoadRefusal>
        ensures few { IfOk result (λ p. vec_len p.1 ≤ 3) }
        ensures reads { Loads heads_view (rule_heads self.now.signature.arities.now) reader.old result reader.new }
    {
        let (kept, removed) = reader.head_counts()?;
        let symbols = self.signature.symbols();
        let heads = reader.parts(&HeadPart { symbols }, (kept + removed) as usize)?;
        Ok((kept, heads))
    }

    /// The rest of a rule that has these heads.
    fn read_rest(
        &self,
        reader: &mut Reader<'_>,
        kept: u8,
        heads: Vec<u8>,
    ) -> Result<Rule, LoadRefusal>
        requires { vec_len heads ≤ 3 }
        ensures { Loads rule_of (rule_rest self.now.signature.arities.now kept heads.items) reader.old result reader.new }
    {
        let slots = self.signature.slots(&heads);
        let guards = reader.list(&GuardPart { slots }, 0..=4)?;
        let fresh = reader.ranged(0..=4)? as u8;
        let items = ItemPart {
            signature: self.signature,
            slots: slots + fresh,
        };
        let body = reader.list(&items, 0..=6)?;
        Ok(Rule {
            kept,
            heads,
            guards,
            fresh,
            body,
        })
    }
}
