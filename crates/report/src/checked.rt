//! From the check of certificates to a verdict.

ghost use Rattle.std.specs.Prelude.{List, IfOk, Ok, Err};
ghost use Rattle.events.specs.declared.event.Event.{Event};
ghost use Rattle.report.specs.Counts.{AreCountsOf};
ghost use Rattle.report.specs.Verdicts.{IsVerdictOnCheck};

use crate::counting::summary_of;
use crate::verdict::{Summary, Verdict};
use checker::Refusal;
use events::History;
use std::alloc::{AllocError, Global};

/// Yes with these counts.
fn accepted(counts: Result<Summary, AllocError>) -> Verdict
    ensures { (es : List Event) → IfOk counts (λ s. AreCountsOf es s)
        → IsVerdictOnCheck es (Ok tt) result }
{
    match counts {
        Ok(counts) => Verdict::Yes(counts),
        Err(AllocError) => Verdict::NoMemory,
    }
}

/// No with this refusal.
fn refused(refusal: Refusal) -> Verdict
    ensures { (es : List Event) → IsVerdictOnCheck es (Err refusal) result }
{
    match refusal {
        Refusal::NoMemory => Verdict::NoMemory,
        _ => Verdict::No(refusal),
    }
}

/// Returns the verdict if the certificates of a history were checked with this result: yes with the
/// counts of the history, or no with the refusal; `NoMemory` if an allocation failed, in the check
/// or here.
pub fn verdict_on_check(alloc: Global, history: &History, checked: Result<(), Refusal>) -> Verdict
    ensures { IsVerdictOnCheck history.now checked result }
{
    match checked {
        Ok(()) => accepted(summary_of(alloc, history.events())),
        Err(refusal) => refused(refusal),
    }
}
