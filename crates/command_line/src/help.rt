//! The text for a command line that is refused.

ghost use Rattle.std.specs.Prelude.{◌≡◌, ◌⊎◌};
ghost use Rattle.clap.specs.Values.{kind_of};
ghost use Rattle.command_line.specs.Lines as spec;

use crate::line_fault::LineFault;
use crate::table::Takes;
use crate::values::Unfit;
use clap::Error;
use clap::error::ErrorKind;
use std::alloc::{AllocError, Global};

/// What `--kind` takes.
const KINDS: &str = "queue, stack, heap, register, map, mutex, set, counter, lock, mixed";

/// What `--first` takes.
const TRY_FIRST_WORDS: &str = "number, return";

/// What `clap` says: help, or what is wrong.
pub(crate) fn fault_of(alloc: Global, error: &Error) -> LineFault
    ensures { spec.IsClapFaultFor (kind_of error.now) result }
{
    if error.kind() == ErrorKind::OutOfMemory {
        return LineFault::NoMemory;
    }
    match format!(in alloc; "{error}") {
        Ok(text) if error.use_stderr() => LineFault::Refused(text),
        Ok(text) => LineFault::Help(text),
        Err(_) => LineFault::NoMemory,
    }
}

/// Why a value that `clap` accepted is refused.
fn reason_of(alloc: Global, unfit: &Unfit) -> Result<String, AllocError> {
    let Unfit::Value(name, takes) = unfit else {
        return String::from_str(alloc, "error: these words are no command\n");
    };
    match takes {
        Takes::Kind => format!(in alloc; "error: --{name} takes one of the words {KINDS}\n"),
        Takes::TryFirst => {
            format!(in alloc; "error: --{name} takes one of the words {TRY_FIRST_WORDS}\n")
        }
        Takes::Number(bounds) => format!(in alloc;
            "error: --{name} takes a number from {} to {}\n",
            bounds.least, bounds.most
        ),
        Takes::Nothing => format!(in alloc; "error: --{name} takes no value\n"),
    }
}

/// Says why what was found fits no line.
pub(crate) fn explain(alloc: Global, unfit: &Unfit) -> LineFault
    ensures memory { unfit.now ≡ Unfit.NoMemory → result ≡ LineFault.NoMemory }
    ensures refused { (result ≡ LineFault.NoMemory) ⊎ spec.AreWordsRefused result }
{
    if matches!(unfit, Unfit::NoMemory) {
        return LineFault::NoMemory;
    }
    match reason_of(alloc, unfit) {
        Ok(text) => LineFault::Refused(text),
        Err(_) => LineFault::NoMemory,
    }
}
