//! What is wrong with the forms of a text of claims.

use edn::EdnFault;

/// What is wrong with a form.
#[derive(Clone, Copy, Debug, PartialEq, Eq)]
pub enum ClaimFaultKind {
    /// K1: it has an `:order`, and is no certificate.
    NotACertificate,
    /// N1: it has no `:order`, and is no reason.
    NotAReason,
    /// An allocation failed.
    NoMemory,
}

/// A fault, and the number of its form, from 0.
#[derive(Clone, Copy, Debug, PartialEq, Eq)]
pub struct ClaimFault {
    pub kind: ClaimFaultKind,
    pub form: usize,
}

/// Why a text denotes no claims.
#[derive(Clone, Copy, Debug, PartialEq, Eq)]
pub enum ClaimTextFault {
    /// The text spells no forms, or an allocation failed for one of its tokens.
    Text(EdnFault),
    /// The forms denote no claims, or an allocation failed for one of them.
    Forms(ClaimFault),
}
