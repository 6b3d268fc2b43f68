//! From a text to certificates, element by element.

ghost use Rattle.std.specs.Prelude.{◌++◌, ◌∷◌, [], List, IfOk, IfErr, OnOk};
ghost use Rattle.edn_reader.specs.Datum.{Datum};
ghost use Rattle.edn_reader.specs.Sound.{IsShort};
ghost use Rattle.edn_reader.specs.Spells.{Spells};
ghost use Rattle.edn_reader.specs.View.{view};
ghost use Rattle.certificate.specs.Denotes.{Denotes, AreDistinct};
ghost use Rattle.certificate.specs.Texts.{IsCertificateReading, IsCertTextFault};

use crate::Certificate;
use crate::fault::CertTextFault;
use crate::reader::Reading;
use crate::usual::usual_certificate;
use edn::{Elements, Form};
use std::alloc::Global;

/// Reads one more form.
fn take(alloc: Global, form: Form, reading: &mut Reading)
    ensures { (ds : List Datum) → IsCertificateReading reading.old ds
        → IsCertificateReading reading.new (ds ++ view form ∷ []) }
{
    reading.take(alloc, &form);
}

/// Reads the certificates that the text denotes, each element being one, or returns what is wrong.
/// What is wrong with the text comes before what is wrong with an element: after the first that is
/// faulty, or whose certificate could not be kept, the text is still read to its end. An element in
/// the usual form is read from its bytes, and any other as a form. If an allocation fails for its
/// tokens or its form, reading ends there, as in `read_forms`.
pub fn read_certificates_text(alloc: Global, text: &[u8]) -> Result<Vec<Certificate>, CertTextFault>
    ensures denotes { IfOk result (λ v.
        (ds : List Datum) × Spells ds text.now × Denotes ds v.items) }
    ensures distinct { IfOk result (λ v. AreDistinct v.items) }
    ensures short { OnOk result (IsShort text.now) }
    ensures fault { IfErr result (IsCertTextFault text.now) }
{
    let mut elements = match Elements::new(alloc, text) {
        Ok(elements) => elements,
        Err(fault) => return Err(CertTextFault::Text(fault)),
    };
    let mut reading = Reading::new(alloc);
    'elements: loop {
        let found = usual_certificate(alloc, elements.rest().as_bytes());
        if let Some((certificate, rest)) = found {
            elements.pass(rest);
            reading.take_usual(certificate);
            continue;
        }
        match elements.next_form() {
            Ok(Some(form)) => take(alloc, form, &mut reading),
            Ok(None) => match reading.finish() {
                Ok(certificates) => return Ok(certificates),
                Err(fault) => return Err(CertTextFault::Forms(fault)),
            },
            Err(fault) => return Err(CertTextFault::Text(fault)),
        }
    }
}
