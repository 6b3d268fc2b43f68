//! From forms to certificates.

ghost use Rattle.std.specs.Prelude.{◌≡◌, ◌≢◌, ◌==◌, if◌then◌else◌, ◌++◌, ◌∷◌, [], ℕ, List, All};
ghost use Rattle.std.specs.Prelude.{true, is_some, Some, None, option_map, IfOk, IfErr, IfSome};
ghost use Rattle.std.specs.Prelude.{IfNone, OnOk};
ghost use Rattle.edn_reader.specs.Truncation.{integers_in};
ghost use Rattle.edn_reader.specs.Datum.{Datum, DatumFits, max_open, items_of};
ghost use Rattle.edn_reader.specs.View.{view, views};
ghost use Rattle.certificate.specs.declared.Certificate.{Certificate};
ghost use Rattle.certificate.specs.Denotes as spec;
ghost use Rattle.certificate.specs.Denotes.{Denotes, AreDistinct};
ghost use Rattle.certificate.specs.Faults.{IsFirstFault, IsCertSoundAt};
ghost use Rattle.certificate.specs.Inside.{has, IsNextCertificate};

use crate::Certificate;
use crate::fault::{CertFault, CertFaultKind};
use edn::Form;
use number_map::NumberMap;
use std::alloc::{AllocError, Global};

/// Whether all the forms are integers.
fn are_integers(forms: &[Form]) -> bool
    ensures { result ≡ is_some (integers_in (items_of (views forms.now))) }
{
    for form in forms {
        if edn::integer(form).is_none() {
            return false;
        }
    }
    true
}

/// Returns the forms as integers; each must be one.
fn integers_of(alloc: Global, forms: &[Form]) -> Result<Vec<i64>, AllocError>
    requires { is_some (integers_in (items_of (views forms.now))) ≡ true }
    ensures { IfOk result (λ v. integers_in (items_of (views forms.now)) ≡ Some v.items) }
{
    let mut integers = Vec::new(alloc);
    for form in forms {
        if let Some(n) = edn::integer(form) {
            integers.push(n)?;
        }
    }
    Ok(integers)
}

/// The elements of an order, if the value is a vector of integers.
fn order_in(value: Option<&Form>) -> Option<&[Form]>
    ensures none { IfNone result (spec.order_in (option_map (λ f. view f.now) value.entry) ≡ None) }
    ensures some { IfSome result (λ fs. spec.order_in (option_map (λ f. view f.now) value.entry)
        ≡ integers_in (items_of (views fs.now))) }
    ensures integers { IfSome result (λ fs. is_some (integers_in (items_of (views fs.now)))
        ≡ true) }
{
    match value {
        Some(Form::Vector(forms)) if are_integers(forms) => Some(forms.as_slice()),
        _ => None,
    }
}

/// The object and the elements of the order, if the form is a certificate.
fn parts_in(form: &Form) -> Option<(u32, &[Form])>
    ensures none { IfNone result (spec.certificate_of (view form.now) ≡ None) }
    ensures some { IfSome result (λ p. spec.certificate_of (view form.now)
        ≡ spec.reading_with (Some p.0) (integers_in (items_of (views p.1.now)))) }
    ensures integers { IfSome result (λ p. is_some (integers_in (items_of (views p.1.now)))
        ≡ true) }
{
    let Form::Map(entries) = form else {
        return None;
    };
    let number = edn::natural(edn::value_at(entries, b"object"));
    let Some(object) = edn::object_number(number) else {
        return None;
    };
    let Some(forms) = order_in(edn::value_at(entries, b"order")) else {
        return None;
    };
    Some((object, forms))
}

/// Reads a form as a certificate, if it is one.
///
/// An error: an allocation failed for its order.
pub fn certificate_in(alloc: Global, form: &Form) -> Result<Option<Certificate>, AllocError>
    ensures { IfOk result (λ o. option_map spec.reading_of o
        ≡ spec.certificate_of (view form.now)) }
{
    let Some((object, entries)) = parts_in(form) else {
        return Ok(None);
    };
    let order = integers_of(alloc, entries)?;
    Ok(Some(Certificate { object, order }))
}

/// The certificate that a form is, if its object is not among the objects. Faults are found before
/// any allocation.
fn next_certificate(
    alloc: Global,
    form: &Form,
    objects: &NumberMap<()>,
) -> Result<Certificate, CertFaultKind>
    ensures { IsNextCertificate (has objects.now) (view form.now) result }
{
    let Some((object, entries)) = parts_in(form) else {
        return Err(CertFaultKind::NotACertificate);
    };
    if objects.get(u64::from(object)).is_some() {
        return Err(CertFaultKind::TwoForOneObject);
    }
    match integers_of(alloc, entries) {
        Ok(order) => Ok(Certificate { object, order }),
        Err(_) => Err(CertFaultKind::NoMemory),
    }
}

/// The same, of a certificate that was read in the usual form.
fn next_usual(
    certificate: Certificate,
    objects: &NumberMap<()>,
) -> Result<Certificate, CertFaultKind>
    ensures { (d : Datum) → spec.certificate_of d ≡ Some (spec.reading_of certificate)
        → IsNextCertificate (has objects.now) d result }
{
    if objects.get(u64::from(certificate.object)).is_some() {
        return Err(CertFaultKind::TwoForOneObject);
    }
    Ok(certificate)
}

/// What was read: the certificates so far and their objects, and what is wrong with the first form
/// that is faulty.
#[derive(Drop)]
pub(crate) struct Reading {
    certificates: Vec<Certificate>,
    objects: NumberMap<()>,
    fault: Option<CertFault>,
}

impl Reading {
    ghost use Rattle.certificate.specs.Texts.{IsCertFaultIn, IsCertificateReading};

    pub fn new(alloc: Global) -> Reading
        ensures { IsCertificateReading result [] }
    {
        Reading {
            certificates: Vec::new(alloc),
            objects: NumberMap::new(alloc),
            fault: None,
        }
    }

    /// One certificate more, of an object that is not among the objects.
    fn push(&mut self, certificate: Certificate) -> Result<(), AllocError>
        ensures certificates { OnOk result
            (self.new.certificates.items ≡ self.old.certificates.items ++ certificate ∷ []) }
        ensures objects { OnOk result ((x : ℕ) → has self.new.objects x
            ≡ (if certificate.object == x then true else has self.old.objects x)) }
        ensures fault { self.new.fault ≡ self.old.fault }
    {
        self.objects.insert(u64::from(certificate.object), ())?;
        self.certificates.push(certificate)?;
        Ok(())
    }

    /// Reads one more form from what was found of it, unless an earlier one is faulty.
    fn take_found(&mut self, found: Result<Certificate, CertFaultKind>)
        ensures { (ds : List Datum) (d : Datum)
            → IsNextCertificate (has self.old.objects) d found
            → IsCertificateReading self.old ds → IsCertificateReading self.new (ds ++ d ∷ []) }
    {
        if self.fault.is_some() {
            return;
        }
        let form = self.certificates.len();
        match found {
            Ok(certificate) => match self.push(certificate) {
                Ok(()) => {}
                Err(_) => self.fault = Some(CertFault {
                    kind: CertFaultKind::NoMemory,
                    form,
                }),
            },
            Err(kind) => self.fault = Some(CertFault { kind, form }),
        }
    }

    /// Reads one more form, unless an earlier one is faulty.
    pub fn take(&mut self, alloc: Global, form: &Form)
        ensures { (ds : List Datum) → IsCertificateReading self.old ds
            → IsCertificateReading self.new (ds ++ view form.now ∷ []) }
    {
        let found = next_certificate(alloc, form, &self.objects);
        self.take_found(found);
    }

    /// Reads one more form, which is this certificate, unless an earlier one is faulty.
    pub fn take_usual(&mut self, certificate: Certificate)
        ensures { (ds : List Datum) (d : Datum)
            → spec.certificate_of d ≡ Some (spec.reading_of certificate)
            → IsCertificateReading self.old ds → IsCertificateReading self.new (ds ++ d ∷ []) }
    {
        let found = next_usual(certificate, &self.objects);
        self.take_found(found);
    }

    /// The certificates, or what is wrong with a form.
    pub fn finish(self) -> Result<Vec<Certificate>, CertFault>
        ensures denotes { (ds : List Datum) → IsCertificateReading self ds
            → IfOk result (λ v. Denotes ds v.items) }
        ensures fault { (ds : List Datum) → IsCertificateReading self ds
            → IfErr result (IsCertFaultIn ds) }
    {
        let Reading {
            certificates,
            objects: _,
            fault,
        } = self;
        match fault {
            Some(fault) => Err(fault),
            None => Ok(certificates),
        }
    }
}

/// Reads each form as a certificate, in order. A fault is that of the first faulty form, except for
/// an allocation failure, which names the form that was being read.
pub fn read_certificates(alloc: Global, forms: Vec<Form>) -> Result<Vec<Certificate>, CertFault>
    requires fit { All (λ f. DatumFits max_open (view f)) forms.items }
    ensures denotes { IfOk result (λ v. Denotes (views forms.items) v.items) }
    ensures distinct { IfOk result (λ v. AreDistinct v.items) }

    ensures fault { IfErr result (λ e. e.kind ≢ CertFaultKind.NoMemory →
        IsFirstFault (views forms.items) e) }
    // An allocation failed, and nothing was wrong up to and including this form.
    ensures memory { IfErr result (λ e. e.kind ≡ CertFaultKind.NoMemory →
        IsCertSoundAt (views forms.items) e.form) }
    // Such a fault means that the forms denote no certificates.
    ensures refused { IfErr result (λ e. e.kind ≢ CertFaultKind.NoMemory → (cs : List Certificate) →
        Denotes (views forms.items) cs → ⊥) }
{
    let mut reading = Reading::new(alloc);
    for form in forms.iter() {
        reading.take(alloc, form);
    }
    reading.finish()
}
