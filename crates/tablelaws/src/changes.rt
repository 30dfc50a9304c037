use terms::Operand;

mod runs;

pub use self::runs::{alike, perform};

/// A call that may change a table.
#[derive(Drop)]
pub enum Change {
    Clear,
    /// A put of an identifier, a symbol and arguments.
    Put(u32, u8, Vec<Operand>),
    Remove(u32),
}
