//! What the calls of a sheet answer.

ghost use Rattle.std.specs.Prelude.{◌≡◌};
ghost use Rattle.machine.specs.Refusals.{variable_refusal_number, post_refusal_number};

use crate::tuple::Tuple;

/// What is full where a step cannot be made.
#[derive(Clone, Copy, Debug, PartialEq)]
pub enum Limit {
    /// 512 items would be passed.
    Waiting,
    /// 512 tuples stand in the history.
    History,
    /// The theory's capacity would be passed.
    Variables,
    /// Every identifier was given.
    Identifiers,
    /// The table holds as many records as it can.
    Table,
}

/// What a step did.
#[derive(Clone, Copy, Debug, PartialEq)]
pub enum Step {
    /// Nothing: the theory has failed.
    Failed,
    /// Nothing: nothing waits.
    Done,
    /// The primitive on top was told.
    Told,
    /// The constraint on top was given this identifier and is active.
    Activated(u32),
    /// This woken constraint is active again.
    Woken(u32),
    /// This constraint does not live, or has no further occurrence.
    Dropped(u32),
    /// No tuple fits at the occurrence of this active constraint.
    Passed(u32),
    /// The rule of this number was applied to the tuple.
    Applied { rule: usize, tuple: Tuple },
    /// Nothing: the step cannot be made.
    Full(Limit),
}

/// How a run ended.
#[derive(Clone, Copy, Debug, PartialEq)]
pub enum End {
    /// The theory has failed.
    Failed,
    /// Nothing waits.
    Done,
    /// As many steps as allowed were made.
    Stopped,
    /// A step could not be made.
    Full(Limit),
}

/// Why no variable was made.
#[derive(Clone, Copy, Debug, PartialEq)]
pub enum VariableRefusal {
    /// As many are made as can be.
    AtCapacity = 21,
}

impl VariableRefusal {
    /// The number of the refusal.
    pub fn number(self) -> u8
        ensures { result ≡ variable_refusal_number self }
    {
        self as u8
    }
}

/// Why a posting was not accepted.
#[derive(Clone, Copy, Debug, PartialEq)]
pub enum PostRefusal {
    /// The theory has failed.
    TheoryFailed = 11,
    /// The kind is above 3.
    NoSuchKind = 12,
    /// The symbol is not declared.
    NoSuchSymbol = 13,
    /// The number of operands is not what the kind or the symbol takes.
    WrongCount = 14,
    /// An operand is no value and no posted variable, or no value stands second in least or most.
    WrongOperand = 15,
    /// 512 items wait.
    TooMany = 16,
}

impl PostRefusal {
    /// The number of the refusal, from 11 to 16.
    pub fn number(self) -> u8
        ensures { result ≡ post_refusal_number self }
    {
        self as u8
    }
}
