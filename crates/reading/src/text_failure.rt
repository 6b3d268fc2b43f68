//! What stops the reading of a text.

ghost use Rattle.std.specs.Prelude.{MatchBool};
ghost use Rattle.reading.specs.Texts.{IsNoMemory, IsTextFailureOf};

use certificate::{CertFault, CertFaultKind};
use edn::{EdnFault, FaultKind};
use history::{HistoryFault, HistoryFaultKind};

/// Which text is malformed, and how.
#[derive(Clone, Copy, Debug, PartialEq, Eq)]
pub enum Fault {
    /// The history's text spells no forms.
    HistoryText(EdnFault),
    /// The forms of the history's text denote no history.
    HistoryMaps(HistoryFault),
    /// The certificates' text spells no forms.
    CertificateText(EdnFault),
    /// The forms of the certificates' text denote no certificates.
    CertificateForms(CertFault),
}

/// What stops the reading of a text: a fault of it, or that an allocation failed.
#[derive(Clone, Copy, Debug, PartialEq, Eq)]
pub enum TextFailure {
    Faulty(Fault),
    NoMemory,
}

/// Whether the fault is that an allocation failed.
fn is_allocation_failure(fault: &Fault) -> bool
    ensures { MatchBool result (IsNoMemory fault.now) (¬ (IsNoMemory fault.now)) }
{
    match fault {
        Fault::HistoryText(e) => matches!(e.kind, FaultKind::NoMemory),
        Fault::HistoryMaps(f) => matches!(f.kind, HistoryFaultKind::NoMemory),
        Fault::CertificateText(e) => matches!(e.kind, FaultKind::NoMemory),
        Fault::CertificateForms(f) => matches!(f.kind, CertFaultKind::NoMemory),
    }
}

/// What stops the reading if this fault was found.
pub(crate) fn failure_of_fault(fault: Fault) -> TextFailure
    ensures { IsTextFailureOf fault result }
{
    if is_allocation_failure(&fault) {
        TextFailure::NoMemory
    } else {
        TextFailure::Faulty(fault)
    }
}
