//! A history is searched, and the certificates that were found are judged.

use certificate::write_certificates;
use edn::Out;
use events::split;
use history::read_history_text;
use reading::In;
use report::Verdict;
use search::{CertificateOutcome, search, search_all};
use std::test::Fail;
use text_check::{check_over, judge};

/// Two values are enqueued at the same time, and the second goes out.
const AT_ONCE: &[u8] = b"
    {:process 0 :type :invoke :f :enqueue :value 1}
    {:process 1 :type :invoke :f :enqueue :value 2}
    {:process 0 :type :ok :f :enqueue :value 1}
    {:process 1 :type :ok :f :enqueue :value 2}
    {:process 0 :type :invoke :f :dequeue}
    {:process 0 :type :ok :f :dequeue :value 2}";

#[test]
fn certificates_that_are_found_are_judged(rt: HostRuntime) -> Result<(), Fail> {
    let alloc = rt.alloc();
    let history = read_history_text(alloc, AT_ONCE).map_err(|_| Fail::new("a history is refused"))?;
    let mut certificates = Vec::new(alloc);
    for (_, answer) in search_all(alloc, &history, 6)? {
        if let CertificateOutcome::Found(certificate) = answer.found {
            certificates.push(certificate)?;
        }
    }
    let mut sink = Out::new(Vec::new(alloc));
    assert!(rt; write_certificates(&certificates, &mut sink).is_ok());
    let text = sink.into_inner();
    assert_eq!(rt;
        text.as_slice(),
        b"{:object 0, :order [1 0 4]}\n".as_slice()
    );
    assert!(rt; matches!(judge(&rt, alloc, AT_ONCE, &text, 1), Verdict::Yes(_)));
    let mut lines = Out::new(Vec::new(alloc));
    let (mut first, mut second) = (In::new(AT_ONCE), In::new(text.as_slice()));
    let given = check_over(&rt, alloc, &mut first, &mut second, 1, &mut lines);
    assert!(rt; matches!(given, Ok(Verdict::Yes(_))));
    assert_eq!(rt;
        lines.into_inner().as_slice(),
        b"yes: 3 operations, 1 objects\nqueue: 1 objects, 3 operations\n".as_slice()
    );
    let objects = split(alloc, &history)?;
    assert!(rt; objects.len() == 1 && search(alloc, &objects[0], 6).steps == 6);
    Ok(())
}
