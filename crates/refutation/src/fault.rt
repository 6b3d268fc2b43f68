//! What is wrong with the forms of a text of reasons.

ghost use Rattle.std.specs.Prelude.{◌≡◌};

use edn::EdnFault;

/// What is wrong with a form.
#[derive(Clone, Copy, Debug, PartialEq, Eq)]
pub enum ReasonFaultKind {
    /// N1: it is no reason.
    NotAReason,
    /// N2: an allocation failed.
    NoMemory,
}

impl ReasonFaultKind {
    ghost use Rattle.refutation.specs.Faults.{reason_fault_number};

    /// The number after the letter N.
    pub fn number(self) -> u8
        ensures { result ≡ reason_fault_number self }
    {
        match self {
            ReasonFaultKind::NotAReason => 1,
            ReasonFaultKind::NoMemory => 2,
        }
    }
}

/// A fault, and the number of its form, from 0.
#[derive(Clone, Copy, Debug, PartialEq, Eq)]
pub struct ReasonFault {
    pub kind: ReasonFaultKind,
    pub form: usize,
}

/// Why a text denotes no reasons.
#[derive(Clone, Copy, Debug, PartialEq, Eq)]
pub enum ReasonTextFault {
    /// The text spells no forms, or an allocation failed for one of its tokens.
    Text(EdnFault),
    /// The forms denote no reasons, or an allocation failed for one of them.
    Forms(ReasonFault),
}
