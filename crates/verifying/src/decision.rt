//! What is decided of an object.

ghost use Rattle.std.specs.Prelude.{◌≡◌};

use certificate::Certificate;
use events::ObjectHistory;
use refutation::Reason;

/// A reason that holds, the part that it names, which has no valid order, and its sentence, which
/// is not checked.
#[derive(Drop)]
pub struct ShownReason {
    pub reason: Reason,
    pub part: ObjectHistory,
    pub note: Option<Vec<u8>>,
}

/// What is decided of an object by the claims on it.
#[derive(Drop)]
pub enum Decision {
    /// A certificate, whose order is valid.
    Order(Certificate),
    /// No order of the operations is valid, and this shows it.
    Impossible(ShownReason),
    /// No claim is shown. A search gave no answer within its limit, which is this many steps.
    OutOfSteps(u64),
    /// No claim is shown. An allocation failed in a search.
    NoMemory,
    /// No claim is true, or there is none.
    Open,
}

impl Decision {
    ghost use Rattle.verifying.specs.Decisions.{is_open, is_shown};

    /// Whether an order or a reason is shown.
    pub fn is_shown(&self) -> bool
        ensures { result ≡ is_shown self.now }
    {
        matches!(self, Decision::Order(_) | Decision::Impossible(_))
    }

    /// Whether no claim is true, or there is none.
    pub fn is_open(&self) -> bool
        ensures { result ≡ is_open self.now }
    {
        matches!(self, Decision::Open)
    }
}
