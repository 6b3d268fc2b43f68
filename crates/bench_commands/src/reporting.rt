//! The output for a record: its history, its certificates, and the verdict on them.

ghost use Rattle.std.specs.Prelude.{◌≡◌, ◌++◌, ℕ, List, IfOk};
ghost use Rattle.model.specs.declared.Kind.{Kind};
ghost use Rattle.desk_model.specs.Records.{IsSoundRecord};
ghost use Rattle.certificate.specs.Denotes.{AreDistinct};
ghost use Rattle.checker.specs.Refusals.{AreValid};
ghost use Rattle.text_check.specs.Verdicts.{IsYesUnlessMemory, SaysOfCertificates};
ghost use Rattle.history_commands.specs.Comments.{comment_lines};
ghost use Rattle.bench_commands.specs.Runs.{IsReported, IsTextOf, Says, journals_of, logs_of};

use certificate::Certificate;
use checker::check_all;
use history::History;
use history_commands::{Output, comments_text, with_verdict};
use recorder::Record;
use report::{Verdict, verdict_on_check};
use seq_objects::AnyObject;
use std::alloc::{AllocError, Global};
use transcript::{Account, account_of, sound_record_is_accepted};

/// The text of a history, then this text, and the certificates as comments.
fn text_of(
    alloc: Global,
    history: Vec<u8>,
    between: &[u8],
    certificates: &[Certificate],
) -> Result<Vec<u8>, AllocError>
    ensures { IfOk result (λ text. text.items
        ≡ history.items ++ (between.now ++ comment_lines certificates.now)) }
{
    let mut text = history;
    text.extend_from_slice(between)?;
    let comments = comments_text(alloc, certificates)?;
    text.extend_from_slice(&comments)?;
    Ok(text)
}

/// The verdict of the check of a history by certificates.
fn verdict_by(alloc: Global, history: &History, certificates: &[Certificate]) -> Verdict
    requires { AreDistinct certificates.now }
    ensures judges { SaysOfCertificates history.now certificates.now result }
    ensures accepts { AreValid history.now certificates.now → IsYesUnlessMemory result }
{
    let checked = check_all(alloc, history, certificates);
    verdict_on_check(alloc, history, checked)
}

/// The lines of the record's history, then this text, and its certificates as comments; and the
/// verdict of the check on them in memory.
fn report_of(
    alloc: Global,
    recorded: &Record<AnyObject>,
    between: &[u8],
) -> Result<(Vec<u8>, Verdict), AllocError>
    ensures text { IfOk result (λ r.
        IsTextOf (journals_of recorded.now) (logs_of recorded.now) between.now r.0.items) }
    ensures says { IfOk result (λ r. Says (journals_of recorded.now) (logs_of recorded.now) r.1) }
    ensures accepted { (kinds : List Kind) (quota : ℕ) →
        IsSoundRecord kinds quota (journals_of recorded.now) (logs_of recorded.now) →
        IfOk result (λ r. IsYesUnlessMemory r.1) }
{
    // This does nothing: it says that the certificates of a sound record are valid.
    sound_record_is_accepted();
    let Account {
        history,
        certificates,
        text,
    } = account_of(alloc, recorded)?;
    let verdict = verdict_by(alloc, &history, &certificates);
    let text = text_of(alloc, text, between, &certificates)?;
    Ok((text, verdict))
}

/// The history of the record, this text, its certificates and the verdict on it.
pub(crate) fn record_output(
    alloc: Global,
    recorded: &Record<AnyObject>,
    between: &[u8],
) -> Result<Output, AllocError>
    ensures { IfOk result (λ o. IsReported (journals_of recorded.now) (logs_of recorded.now)
        between.now o.status o.text.items) }
{
    let (text, verdict) = report_of(alloc, recorded, between)?;
    with_verdict(text, &verdict, true)
}
