//! What is wrong with a text of certificates.

ghost use Rattle.std.specs.Prelude.{◌≡◌};

use edn::EdnFault;

/// What is wrong with a form.
#[derive(Clone, Copy, Debug, PartialEq, Eq)]
pub enum CertFaultKind {
    /// K1: it is no certificate.
    NotACertificate,
    /// K2: an earlier form is a certificate of the same object.
    TwoForOneObject,
    /// K3: an allocation failed.
    NoMemory,
}

impl CertFaultKind {
    ghost use Rattle.certificate.specs.Faults.{cert_fault_number};

    /// The number after the letter K.
    pub fn number(self) -> u8
        ensures { result ≡ cert_fault_number self }
    {
        match self {
            CertFaultKind::NotACertificate => 1,
            CertFaultKind::TwoForOneObject => 2,
            CertFaultKind::NoMemory => 3,
        }
    }
}

/// A fault, and the number of its form, from 0.
#[derive(Clone, Copy, Debug, PartialEq, Eq)]
pub struct CertFault {
    pub kind: CertFaultKind,
    pub form: usize,
}

/// What is wrong with a text of certificates: with the text itself, or with an element of it.
#[derive(Clone, Copy, Debug, PartialEq, Eq)]
pub enum CertTextFault {
    Text(EdnFault),
    Forms(CertFault),
}
