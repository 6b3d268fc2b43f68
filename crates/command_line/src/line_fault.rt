//! Why words give no line.

ghost use Rattle.std.specs.Prelude.{◌≡◌};
ghost use Rattle.command_line.specs.declared.line_fault.LineFault.TheVariants.{NoMemory};

use std::alloc::{AllocError, AllocFailed};
use thiserror::Error as ErrorText;

/// Why there is no command: help was asked for, the words are wrong, or an allocation failed.
#[derive(Debug, Drop, ErrorText)]
pub enum LineFault {
    /// They ask for help: this text.
    #[error("{0}")]
    Help(String),
    /// They are refused, for this reason.
    #[error("{0}")]
    Refused(String),
    #[error("out of memory")]
    NoMemory,
}

impl From<AllocError> for LineFault {
    ghost from_gives = { λ _ e. e ≡ NoMemory };

    fn from(_e: AllocError) -> LineFault {
        LineFault::NoMemory
    }
}

impl<T: Drop> From<AllocFailed<T>> for LineFault {
    ghost from_gives = { λ _ e. e ≡ NoMemory };

    fn from(_e: AllocFailed<T>) -> LineFault {
        LineFault::NoMemory
    }
}
