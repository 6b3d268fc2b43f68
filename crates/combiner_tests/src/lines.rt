//! What a record gives: the lines of its history, its certificates, and the verdict of the check
//! on both.

use crate::bench::Closing;
use crate::refusing::Refusing;
use certificate::write_certificates;
use edn::Out;
use publication::Record;
use report::{Verdict, summary, write_verdict};
use std::alloc::{AllocError, Global};
use transcript::{certificates, check_record, history, write_history};

fn verdict_on(alloc: Global, record: &Record<Refusing>) -> Result<Verdict, AllocError> {
    match check_record(alloc, record) {
        Ok(()) => Ok(Verdict::Yes(summary(alloc, &history(alloc, record)?)?)),
        Err(refusal) => Ok(Verdict::No(refusal)),
    }
}

fn text_of(alloc: Global, record: &Record<Refusing>) -> Result<Vec<u8>, AllocError> {
    let certificates = certificates(alloc, record)?;
    let verdict = verdict_on(alloc, record)?;
    let mut sink = Out::new(Vec::new(alloc));
    let Ok(()) = write_history(alloc, record, &mut sink) else {
        return Err(AllocError);
    };
    let Ok(()) = write_certificates(&certificates, &mut sink) else {
        return Err(AllocError);
    };
    let Ok(()) = write_verdict(&verdict, false, &mut sink) else {
        return Err(AllocError);
    };
    Ok(sink.into_inner())
}

/// Whether the desk was closed, and the record's history, certificates and verdict are these lines.
pub(crate) fn has_lines(alloc: Global, closing: &Closing, lines: &str) -> bool {
    let Closing::Closed(record) = closing else {
        return false;
    };
    match text_of(alloc, record) {
        Ok(text) => text.as_slice() == lines.as_bytes(),
        Err(_) => false,
    }
}
