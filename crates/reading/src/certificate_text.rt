//! The certificates that a text denotes.

ghost use Rattle.std.specs.Prelude.{◌≡◌, List, map, IfOk, IfErr};
ghost use Rattle.certificate.specs.declared.Certificate.{Certificate};
ghost use Rattle.certificate.specs.Denotes.{AreDistinct, reading_of};
ghost use Rattle.edn_reader.specs.Sound.{IsShort};
ghost use Rattle.reading.specs.Texts.{DenotesCertificates, IsCertificatesFault};

use crate::text_failure::{Fault, TextFailure, failure_of_fault};
use certificate::{CertTextFault, Certificate, read_certificates_text};
use std::alloc::Global;

/// Returns the certificates that a text denotes, or the first fault of the text.
pub fn certificates_of_text(alloc: Global, text: &[u8]) -> Result<Vec<Certificate>, TextFailure>
    ensures denotes { IfOk result (λ cs. DenotesCertificates text.now cs.items) }
    ensures only { IfOk result (λ cs. (ds : List Certificate) → DenotesCertificates text.now ds →
        map reading_of ds ≡ map reading_of cs.items) }
    ensures distinct { IfOk result (λ cs. AreDistinct cs.items) }
    ensures short { IfOk result (λ _. IsShort text.now) }
    ensures stop { IfErr result (IsCertificatesFault text.now) }
    ensures accepts { IfErr result (λ s. (cs : List Certificate) → DenotesCertificates text.now cs →
        IsShort text.now → s ≡ TextFailure.NoMemory) }
{
    match read_certificates_text(alloc, text) {
        Ok(certificates) => Ok(certificates),
        Err(CertTextFault::Text(fault)) => Err(failure_of_fault(Fault::CertificateText(fault))),
        Err(CertTextFault::Forms(fault)) => Err(failure_of_fault(Fault::CertificateForms(fault))),
    }
}
