//! Why a text is no script.

ghost use Rattle.std.specs.Prelude.{◌≡◌};
ghost use Rattle.sdv_script.specs.declared.fault.Stop.TheVariants.{Memory};

use std::alloc::{AllocError, AllocFailed};
use thiserror::Error;

/// What is wrong at a token; for one token the first of these that holds.
#[derive(Clone, Copy, Debug, PartialEq, Eq)]
pub enum FaultKind {
    /// A character that begins no token, or digits that are no number.
    Token,
    /// A token that may not stand here, or `break` outside a loop's body.
    Syntax,
    /// A name that is undeclared, declared twice, reserved or of the other sort.
    Name,
    /// A command index that the kind of card has not.
    Command,
    /// What follows a command index is not what the command is written with.
    Argument,
    /// A guard that does not fit the command.
    Guard,
    /// A limit is passed.
    Limit,
    /// The script can fall off its end.
    NoEnd,
    /// Memory ran out.
    Memory,
}

/// Why a text is no script: the first fault, and the line of its token, counted from 1; line 0 for want of memory.
#[derive(Clone, Copy, Debug, PartialEq, Eq, Error)]
#[error("script fault {kind:?} line {line}")]
pub struct ScriptFault {
    /// What is wrong.
    pub kind: FaultKind,
    /// The line of the token, or of the end of the text.
    pub line: u32,
}

/// Why reading stopped.
#[derive(Clone, Copy)]
pub enum Stop {
    /// Memory ran out.
    Memory,
    /// The text is no script.
    Fault(ScriptFault),
}

impl From<AllocError> for Stop {
    ghost from_gives = { λ _ e. e ≡ Memory };

    fn from(_e: AllocError) -> Stop {
        Stop::Memory
    }
}

impl<T: Drop> From<AllocFailed<T>> for Stop {
    ghost from_gives = { λ _ e. e ≡ Memory };

    fn from(_e: AllocFailed<T>) -> Stop {
        Stop::Memory
    }
}
