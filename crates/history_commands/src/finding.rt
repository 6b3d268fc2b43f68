//! The finding on a shard of a history, or on several together.

ghost use Rattle.std.specs.Prelude.{◌≡◌, ◌≢◌};
ghost use Rattle.history_commands.specs.Merged as spec;

use crate::status::Status;

/// The finding on a shard, or on several together: the worst of those on each.
#[derive(Clone, Copy, Debug, PartialEq, Eq)]
pub enum Finding {
    /// Each object has an order.
    Certified,
    /// No text is malformed and no object impossible, but some object has no order.
    Undecided,
    /// An object is impossible.
    Refuted,
    /// The text of a shard is malformed, or its table does not fit.
    Malformed,
}

impl Finding {
    /// From 0, the greater the worse.
    fn rank(self) -> u8
        ensures { result ≡ spec.finding_rank self }
    {
        match self {
            Finding::Certified => 0,
            Finding::Undecided => 1,
            Finding::Refuted => 2,
            Finding::Malformed => 3,
        }
    }

    /// The worse of two.
    pub fn worse(self, other: Finding) -> Finding
        ensures { result ≡ spec.worse self other }
    {
        if self.rank() < other.rank() {
            other
        } else {
            self
        }
    }

    /// The status of a merge with this finding.
    pub fn status(self) -> Status
        ensures is { result ≡ spec.status_with self }
        ensures not_failed { result ≢ Status.Failed }
    {
        match self {
            Finding::Certified => Status::Yes,
            Finding::Undecided => Status::Undecided,
            Finding::Refuted => Status::No,
            Finding::Malformed => Status::Malformed,
        }
    }
}
