//! How a command ends.

ghost use Rattle.std.specs.Prelude.{◌≡◌, ◌≢◌};
ghost use Rattle.history_commands.specs.Outputs as spec;

use checker::Refusal;
use report::Verdict;

/// How a command ends.
#[derive(Clone, Copy, Debug, PartialEq, Eq)]
pub enum Status {
    /// The history is linearizable, each object has a certificate, the history was divided, each
    /// trusted status is 0, or help or the version was asked for.
    Yes,
    /// The certificates are refused, or the history is not linearizable.
    No,
    /// A text other than evidence is malformed, or a client of a schedule has not ended.
    Malformed,
    /// Some object has neither an order nor a reason that holds, no reason shows that the history
    /// is not linearizable, the evidence is malformed, a shard is too large, or more shards are
    /// needed.
    Undecided,
    OutOfMemory,
    /// A thread could not be started.
    NoThread,
    /// The output failed, or a file could not be read or written.
    Failed,
    /// The command line is refused.
    Usage,
}

impl Status {
    /// The exit status.
    pub fn number(self) -> u8
        ensures { result ≡ spec.status_number self }
    {
        match self {
            Status::Yes => 0,
            Status::No => 1,
            Status::Malformed => 2,
            Status::Undecided | Status::OutOfMemory | Status::NoThread => 3,
            Status::Failed => 4,
            Status::Usage => 64,
        }
    }
}

/// How a command ends with this verdict.
pub fn status_of(verdict: &Verdict) -> Status
    ensures is { result ≡ spec.status_of verdict.now }
    ensures not_failed { result ≢ Status.Failed }
{
    match verdict {
        Verdict::Yes(_) => Status::Yes,
        Verdict::No(Refusal::NoMemory) | Verdict::NoMemory => Status::OutOfMemory,
        Verdict::No(_) => Status::No,
        Verdict::Malformed(_) => Status::Malformed,
    }
}

/// How a command on the objects of a history ends: `No` if one is impossible, `Yes` if each has an
/// order, and otherwise `Undecided`.
pub(crate) fn status_by(is_any_impossible: bool, are_all_found: bool) -> Status
    ensures is { result ≡ spec.status_by is_any_impossible are_all_found }
    ensures not_failed { result ≢ Status.Failed }
{
    if is_any_impossible {
        Status::No
    } else if are_all_found {
        Status::Yes
    } else {
        Status::Undecided
    }
}
