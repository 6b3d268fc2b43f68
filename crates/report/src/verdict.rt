//! The verdict on a history.

ghost use Rattle.std.specs.Prelude.{◌≡◌};

use checker::Refusal;
use reading::{Fault, TextFailure};
use seq_objects::Kind;

/// What a history has of one kind: objects that some invocation names, even a failed one, and
/// operations that did not fail.
#[derive(Clone, Copy, Debug, PartialEq, Eq)]
pub struct KindCount {
    pub kind: Kind,
    pub objects: usize,
    pub operations: usize,
}

/// What a history has, in all and of each kind. The kinds are in the order of their first
/// invocations.
#[derive(Debug, PartialEq, Eq, Drop)]
pub struct Summary {
    pub operations: usize,
    pub objects: usize,
    pub kinds: Vec<KindCount>,
}

/// The verdict on a history and its certificates.
#[derive(Debug, PartialEq, Eq, Drop)]
pub enum Verdict {
    /// The certificates hold, so the history is linearizable.
    Yes(Summary),
    /// The certificates are refused.
    No(Refusal),
    Malformed(Fault),
    NoMemory,
}

// The verdict if a text could not be read.
impl From<TextFailure> for Verdict {
    ghost use Rattle.report.specs.Verdicts.{verdict_of};

    ghost from_gives = { λ stop v. v ≡ verdict_of stop };

    fn from(stop: TextFailure) -> Verdict {
        match stop {
            TextFailure::Faulty(fault) => Verdict::Malformed(fault),
            TextFailure::NoMemory => Verdict::NoMemory,
        }
    }
}
