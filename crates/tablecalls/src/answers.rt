use crate::calls::Call;
use std::fmt;
use table::partner::PartnerTable;
use table::put::PutRefusal;
use terms::Operand;

/// What a table answers to a call.
#[derive(Clone, Copy, Debug)]
pub enum Answer {
    Cleared,
    Count(usize),
    Put(Result<(), PutRefusal>),
    Removed(bool),
    Next(Option<u32>),
    Symbol(Option<u8>),
    Argument(Option<Operand>),
}

impl fmt::Display for Answer {
    fn fmt<W: fmt::Write>(&self, f: &mut fmt::Formatter<W>) -> fmt::Result {
        match self {
            Answer::Cleared => f.write_str("done"),
            Answer::Count(count) => write!(f, "{count}"),
            Answer::Put(Ok(())) => f.write_str("added"),
            Answer::Put(Err(refusal)) => write!(f, "{refusal}"),
            Answer::Removed(removed) => write!(f, "{removed}"),
            Answer::Next(Some(identifier)) => write!(f, "{identifier}"),
            Answer::Symbol(Some(symbol)) => write!(f, "{symbol}"),
            Answer::Argument(Some(Operand::Value(value))) => write!(f, "{value}"),
            Answer::Argument(Some(Operand::Variable(variable))) => write!(f, "x{variable}"),
            Answer::Next(None) | Answer::Symbol(None) | Answer::Argument(None) => {
                f.write_str("none")
            }
        }
    }
}

/// Makes a call.
pub(crate) fn make<P: PartnerTable>(table: &mut P, call: &Call) -> Answer {
    match call {
        Call::Clear => {
            table.clear();
            Answer::Cleared
        }
        Call::Count => Answer::Count(table.count()),
        Call::Put {
            identifier,
            symbol,
            arguments,
        } => Answer::Put(table.put(*identifier, *symbol, arguments.as_slice())),
        Call::Remove(identifier) => Answer::Removed(table.remove(*identifier)),
        Call::Next { symbol, key, above } => Answer::Next(table.next(*symbol, *key, *above)),
        Call::Symbol(identifier) => Answer::Symbol(table.symbol(*identifier)),
        Call::Argument { identifier, place } => {
            Answer::Argument(table.argument(*identifier, *place))
        }
    }
}
