use anyhow::{Context, anyhow};
use std::alloc::Global;
use std::num::ParseIntError;
use std::str::{FromStr, SplitWhitespace};
use terms::Operand;

/// A call of a partner table.
#[derive(Drop)]
pub enum Call {
    Clear,
    Count,
    Put {
        identifier: u32,
        symbol: u8,
        arguments: Vec<Operand>,
    },
    Remove(u32),
    Next {
        symbol: Option<u8>,
        key: Option<i32>,
        above: u32,
    },
    Symbol(u32),
    Argument {
        identifier: u32,
        place: usize,
    },
}

/// The call that a line says: its name and its arguments, with spaces between them. None is written `-`, and the variable 5 `x5`.
pub(crate) fn parse(heap: Global, line: &str) -> anyhow::Result<Call> {
    let words = &mut line.split_whitespace();
    Ok(match word(words)? {
        "clear" => Call::Clear,
        "count" => Call::Count,
        "remove" => Call::Remove(word(words)?.parse()?),
        "symbol" => Call::Symbol(word(words)?.parse()?),
        "argument" => Call::Argument {
            identifier: word(words)?.parse()?,
            place: word(words)?.parse()?,
        },
        "next" => Call::Next {
            symbol: parse_optional(word(words)?)?,
            key: parse_optional(word(words)?)?,
            above: word(words)?.parse()?,
        },
        "put" => Call::Put {
            identifier: word(words)?.parse()?,
            symbol: word(words)?.parse()?,
            arguments: parse_operands(heap, words)?,
        },
        _ => return Err(anyhow!("no such call")),
    })
}

fn word<'a>(words: &mut SplitWhitespace<'a>) -> anyhow::Result<&'a str> {
    words.next().context("a word is missing")
}

/// The number that a word says; `-` says none.
fn parse_optional<T: FromStr<Err = ParseIntError>>(word: &str) -> anyhow::Result<Option<T>> {
    match word {
        "-" => Ok(None),
        number => Ok(Some(number.parse()?)),
    }
}

fn parse_operands(heap: Global, words: &mut SplitWhitespace<'_>) -> anyhow::Result<Vec<Operand>> {
    let mut operands = Vec::new(heap);
    for text in words {
        operands.push(parse_operand(text)?)?;
    }
    Ok(operands)
}

/// A number, or `x` with a variable's number.
// The program of theories reads another letter and has another error; a call for both would be longer than this.
fn parse_operand(text: &str) -> anyhow::Result<Operand> {
    match text.strip_prefix("x") {
        Some(number) => Ok(Operand::Variable(number.parse()?)),
        None => Ok(Operand::Value(text.parse()?)),
    }
}
