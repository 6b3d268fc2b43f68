//! The output of a command.

ghost use Rattle.std.specs.Prelude.{◌≢◌, ◌++◌, false, IfOk};
ghost use Rattle.report.specs.Lines.{verdict_text};
ghost use Rattle.history_commands.specs.Outputs as spec;
ghost use Rattle.history_commands.specs.Outputs.{IsExactly};
ghost use Rattle.history_commands.specs.declared.status.Status.TheVariants.{Failed};

use crate::status::{Status, status_of};
use edn::Out;
use report::{Verdict, write_verdict};
use std::alloc::{AllocError, Global};

/// How a command ends, and its lines.
#[derive(Drop)]
pub struct Output {
    pub status: Status,
    pub text: Vec<u8>,
    // Lines that are made have not failed to be written.
    ghost unfailed: { status ≢ Failed },
}

/// Returns this text and then the lines of the verdict, as comments or as they are.
pub fn with_verdict(text: Vec<u8>, verdict: &Verdict, commented: bool) -> Result<Output, AllocError>
    ensures { IfOk result (λ o. IsExactly (spec.status_of verdict.now)
        (text.items ++ verdict_text commented verdict.now) o.status o.text.items) }
{
    let mut sink = Out::new(text);
    match write_verdict(verdict, commented, &mut sink) {
        Ok(()) => Ok(Output {
            status: status_of(verdict),
            text: sink.into_inner(),
        }),
        Err(_) => Err(AllocError),
    }
}

/// The lines of the verdict.
pub fn verdict_output(alloc: Global, verdict: &Verdict) -> Result<Output, AllocError>
    ensures { IfOk result (λ o. IsExactly (spec.status_of verdict.now)
        (verdict_text false verdict.now) o.status o.text.items) }
{
    with_verdict(Vec::new(alloc), verdict, false)
}
