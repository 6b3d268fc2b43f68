//! Tests that written certificates are read back, and which fault of a text is its first.

use crate::texts_read::all_fit;
use certificate::{
    CertFault, CertFaultKind, CertTextFault, Certificate, read_certificates,
    read_certificates_text, write_certificates,
};
use edn::{Out, read_forms};
use std::alloc::Global;
use std::test::Fail;

/// What the text reads as, by way of forms and without them.
fn read(alloc: Global, text: &[u8]) -> Result<Result<Vec<Certificate>, CertFault>, Fail> {
    let Ok(forms) = read_forms(alloc, text) else {
        return Err(Fail::new("a text of forms is refused"));
    };
    if !all_fit(forms.as_slice()) {
        return Err(Fail::new("a form that was read does not fit"));
    }
    let answer = read_certificates(alloc, forms);
    let same = match (&answer, read_certificates_text(alloc, text)) {
        (Ok(certificates), Ok(other)) => certificates.as_slice() == other.as_slice(),
        (Err(fault), Err(CertTextFault::Forms(other))) => *fault == other,
        _ => false,
    };
    if !same {
        return Err(Fail::new("the two readers differ"));
    }
    Ok(answer)
}

#[test]
fn written_certificates_are_read_back(rt: HostRuntime) -> Result<(), Fail> {
    let text = b"{:object 0, :order [0 2]}\n{:object 65535, :order []}\n{:object 7, :order [-1 \
          9223372036854775807 -9223372036854775808]}\n";
    let Ok(certificates) = read(rt.alloc(), text)? else {
        return Err(Fail::new("certificates are refused"));
    };
    assert!(rt; certificates.len() == 3);
    assert!(rt; certificates[1].object == 65_535);
    assert!(rt; certificates[0].order.as_slice() == [0, 2].as_slice());
    let mut sink = Out::new(Vec::new(rt.alloc()));
    write_certificates(certificates.as_slice(), &mut sink)?;
    assert!(rt; sink.into_inner().as_slice() == text.as_slice());
    Ok(())
}

#[test]
fn certificates_are_refused_for_their_first_fault(rt: HostRuntime) -> Result<(), Fail> {
    let answer = read(
        rt.alloc(),
        b"{:object 3, :order []} 5 {:object 3, :order []}",
    )?;
    let (kind, form) = (CertFaultKind::NotACertificate, 1);
    assert!(rt; answer == Err(CertFault { kind, form }));
    Ok(())
}

/// A form in an unusual form, and its order if it is a certificate.
const ORDERS: [(&str, Option<&[i64]>); 19] = [
    (
        "{:object 3 :order [1 -2 9223372036854775807]}",
        Some(&[1, -2, 9_223_372_036_854_775_807]),
    ),
    ("{:object 3 :order []}", Some(&[])),
    ("{:object 3 :order [1 2 3 4 5]}", Some(&[1, 2, 3, 4, 5])),
    (
        "{:object 3 :order [0 0 0 0 0 0] :a 1}",
        Some(&[0, 0, 0, 0, 0, 0]),
    ),
    (
        "{:object 3 :a [[] {:order [1]}] :b {:order [[2]]} :c :order :order [5 , ; 6\n7]}",
        Some(&[5, 7]),
    ),
    (
        "{:object 3 :a {} :order [-9223372036854775808]}",
        Some(&[-9_223_372_036_854_775_808]),
    ),
    ("{:object 3 :a [:order [1]]}", None),
    ("{:object 3 :a {:order [1]}}", None),
    ("{:object 3 :a :order :b [1]}", None),
    ("{:object 3 :orders [1]}", None),
    ("{:object 3 :orde [1]}", None),
    ("{:object 3 :order 1}", None),
    ("{:object 3 :order {:order [1]}}", None),
    ("{:object 3 :order [1 [2]]}", None),
    ("{:object 3 :order [1 {}]}", None),
    ("{:object 3 :order [1 nil]}", None),
    ("{:object 3 :order [1 :order]}", None),
    ("[1 2]", None),
    (":order", None),
];

#[test]
fn a_certificate_is_read_however_it_is_written(rt: HostRuntime) -> Result<(), Fail> {
    for (text, want) in ORDERS.iter() {
        let is_so = match (read(rt.alloc(), text.as_bytes())?, *want) {
            (Ok(certificates), Some(order)) => {
                certificates.len() == 1 && certificates[0].order.as_slice() == order
            }
            (Err(fault), None) => fault.kind == CertFaultKind::NotACertificate && fault.form == 0,
            _ => false,
        };
        assert!(rt; is_so, "at {text:?}");
    }
    Ok(())
}
