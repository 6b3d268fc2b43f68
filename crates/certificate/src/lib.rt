//! Certificates: for an object, an order of its operations.
#![tactic(auto)]

mod fault;
mod reader;
mod text_reader;
mod usual;
mod writer;

pub use fault::{CertFault, CertFaultKind, CertTextFault};
pub use reader::{certificate_in, read_certificates};
pub use text_reader::read_certificates_text;
pub use writer::write_certificates;

/// An order of an object's operations, by the numbers of their invocations. Nothing is promised of
/// the numbers.
#[derive(Debug, PartialEq, Eq, Drop)]
pub struct Certificate {
    pub object: u32,
    pub order: Vec<i64>,
}
