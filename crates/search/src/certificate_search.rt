//! The answers of a search.

use certificate::Certificate;

/// What a search has found.
#[derive(Debug, Drop)]
pub enum CertificateOutcome {
    /// A certificate, whose order is valid.
    Found(Certificate),
    /// No order of the operations is valid.
    Impossible,
    /// There is no answer within the limit of steps.
    OutOfSteps,
    /// There are more than 4,096 operations that did not fail.
    TooLarge,
    /// An allocation failed.
    NoMemory,
}

/// The answer of a search, with its number of steps. Each operation that is tried is a step; no
/// clause says that they are counted so, only that their number is within the limit.
#[derive(Debug, Drop)]
pub struct Search {
    pub found: CertificateOutcome,
    pub steps: u64,
}
