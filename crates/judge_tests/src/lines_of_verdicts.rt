//! Tests the lines of verdicts that no command writes.

use certificate::{CertFault, CertFaultKind};
use checker::{OrderFault, Refusal};
use edn::Out;
use report::{Fault, Verdict, write_verdict};
use seq_objects::AnyReply;
use std::test::Fail;

/// No command comments a refusal or a fault.
#[test]
fn any_verdict_is_written_as_a_comment(rt: HostRuntime) -> Result<(), Fail> {
    let gives = AnyReply::Swapped(1, -2);
    let fault = OrderFault::WrongReply { op: 2, gives };
    let (kind, form) = (CertFaultKind::TwoForOneObject, 1);
    let rows = [
        (
            Verdict::No(Refusal::BadOrder { object: 0, fault }),
            "; no: C6 object 0: 2 gives [1 -2]\n",
        ),
        (
            Verdict::Malformed(Fault::CertificateForms(CertFault { kind, form })),
            "; malformed certificates: K2 at form 1\n",
        ),
        (Verdict::NoMemory, "; out of memory\n"),
    ];
    for (verdict, want) in rows.iter() {
        let mut sink = Out::new(Vec::new(rt.alloc()));
        write_verdict(verdict, true, &mut sink)?;
        assert!(rt; sink.into_inner().as_slice() == want.as_bytes());
    }
    Ok(())
}
