// Loaded rules as CHR source text, which a Prolog system with CHR can read.
#![tactic(auto)]

ghost use Rattle.std.specs.Prelude.{Some};
ghost use Rattle.rulefile.specs.Rulebooks.{rules_book};
ghost use Rattle.listing.specs.Listings.{symbols_text, book_text};

mod rule;
mod source;

use rule::RuleText;
use rulefile::Rules;
use source::show_comma;
use std::fmt;

/// Loaded rules, to be shown as source text.
#[derive(Drop)]
pub struct Listing<'a> {
    pub rules: &'a Rules,
}

impl fmt::Display for Listing<'_> {
    ghost output = { λ l. Some (book_text (rules_book l.rules.now)) };

    fn fmt<W: fmt::Write>(&self, f: &mut fmt::Formatter<W>) -> fmt::Result {
        let signature = self.rules.signature();
        write!(
            f,
            ":- use_module(library(chr)).\n:- chr_constraint {}.\n",
            Symbols(signature.arities)
        )?;
        for (k, rule) in self.rules.rules().iter().enumerate() {
            let text = RuleText {
                signature,
                number: k + 1,
                rule,
            };
            write!(f, "{text}")?;
        }
        Ok(())
    }
}

/// The symbols of a file, each with its argument count.
#[derive(Clone, Copy)]
struct Symbols<'a>(&'a [u8]);

impl fmt::Display for Symbols<'_> {
    ghost output = { λ s. Some (symbols_text s.0.now) };

    fn fmt<W: fmt::Write>(&self, f: &mut fmt::Formatter<W>) -> fmt::Result {
        for (k, count) in self.0.iter().enumerate() {
            show_comma(k, f)?;
            write!(f, "c{k}/{count}")?;
        }
        Ok(())
    }
}
