//! A line's words, as a call.

use std::num::ParseIntError;
use terms::{Operand, Primitive};

/// A call to a theory.
#[derive(Clone, Copy)]
pub enum Call {
    Clear,
    Make,
    Count,
    Failed,
    Fixed(u8),
    Range(u8),
    Tell(Primitive<Operand>),
    Ask(Primitive<Operand>),
}

/// Words that are no call.
#[derive(Debug, Drop, thiserror::Error)]
#[error("no call")]
pub struct NoCall;

impl From<ParseIntError> for NoCall {
    fn from(_error: ParseIntError) -> NoCall {
        NoCall
    }
}

impl TryFrom<&[&str]> for Call {
    type Error = NoCall;

    fn try_from(words: &[&str]) -> Result<Call, NoCall> {
        Ok(match words {
            ["clear"] => Call::Clear,
            ["make"] => Call::Make,
            ["count"] => Call::Count,
            ["failed"] => Call::Failed,
            ["fixed", x] => Call::Fixed(x.parse()?),
            [_, x] => Call::Range(x.parse()?),
            ["tell", kind, a, b] => Call::Tell(primitive(kind, a, b)?),
            [_, kind, a, b] => Call::Ask(primitive(kind, a, b)?),
            _ => return Err(NoCall),
        })
    }
}

/// A primitive: its kind, an operand, and an operand or a number.
// The kind is the word that is read; as patterns of a whole line the three would be said twice, for `tell` and for `ask`.
fn primitive(kind: &str, a: &str, b: &str) -> Result<Primitive<Operand>, NoCall> {
    let a = operand(a)?;
    Ok(match kind {
        "same" => Primitive::Same(a, operand(b)?),
        "least" => Primitive::Least(a, b.parse()?),
        _ => Primitive::Most(a, b.parse()?),
    })
}

/// A number, or `v` with a variable's number.
// The program of tables reads another letter and has another error; a call for both would be longer than this.
fn operand(word: &str) -> Result<Operand, NoCall> {
    Ok(match word.strip_prefix("v") {
        Some(number) => Operand::Variable(number.parse()?),
        None => Operand::Value(word.parse()?),
    })
}
