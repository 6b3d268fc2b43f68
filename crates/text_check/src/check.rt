//! The judge on two texts that come from sources.

ghost use Rattle.std.specs.Prelude.{◌≡◌, ◌≢◌, ℕ, List, false, true, IfOk, IfErr, OnErr};
ghost use Rattle.std.specs.Io.KnownBytes.{Appends};
ghost use Rattle.edn.specs.Sent.{WritesPrefix};
ghost use Rattle.text_check.specs.Verdicts.{IsJudgement, OnYes};
ghost use Rattle.report.specs.Lines.{verdict_text};
ghost use Rattle.report.specs.declared.verdict.Verdict.{Verdict as ReportVerdict};
ghost use Rattle.text_check.specs.Checks.{IsCutOff, IsJudged};
ghost use Rattle.reading.specs.Reads.{IsLinearizableRead};
ghost use Rattle.reading.specs.Reads.{WasRefused};
ghost use Rattle.reading.specs.Texts.{IsHistoryRead};

use crate::decision::check_read;
use edn::{Failed, Sink, Source};
use history::History;
use reading::{ReadFault, TextFailure, UnreadSource, WhichSource, read_history_and_text};
use report::{Verdict, write_verdict};
use std::alloc::Global;
use std::thread::Threads;
use thiserror::Error;

/// One of the two texts.
#[derive(Clone, Copy, Debug, PartialEq, Eq)]
pub enum WhichText {
    History,
    Certificates,
}

/// Why there is no verdict, or not all of its lines.
#[derive(Clone, Copy, Debug, PartialEq, Eq, Drop, Error)]
pub enum ToolFault {
    /// X1: the text's source failed. Nothing was written.
    #[error("a text could not be read")]
    Read(WhichText),
    /// X2: the sink failed. A beginning of the verdict's lines was written.
    #[error("the output failed")]
    Write,
    /// X3: an allocation failed before the texts were judged. Nothing was written.
    #[error("out of memory")]
    NoMemory,
}

/// The fault if a text could not be read.
fn fault_of_reading(unread: UnreadSource) -> ToolFault
    ensures first { unread.which ≡ WhichSource.First → unread.fault ≡ ReadFault.Failed →
        result ≡ ToolFault.Read WhichText.History }
    ensures second { unread.which ≡ WhichSource.Second → unread.fault ≡ ReadFault.Failed →
        result ≡ ToolFault.Read WhichText.Certificates }
    ensures memory { unread.fault ≡ ReadFault.NoMemory → result ≡ ToolFault.NoMemory }
{
    match (unread.fault, unread.which) {
        (ReadFault::Failed, WhichSource::First) => ToolFault::Read(WhichText::History),
        (ReadFault::Failed, WhichSource::Second) => ToolFault::Read(WhichText::Certificates),
        (ReadFault::NoMemory, _) => ToolFault::NoMemory,
    }
}

/// Judges a history that was read by the certificates in a text, and writes the lines of the
/// verdict. Only the sink can fail.
fn check_and_write<R: Threads + Sync, W: Sink>(
    rt: &R,
    alloc: Global,
    history: Result<History, TextFailure>,
    certificates: &[u8],
    workers: u32,
    sink: &mut W,
) -> Result<Verdict, Failed>
    requires { W.broken sink.old ≡ false }
    ensures judged { (h : List ℕ) → IsHistoryRead h history → IfOk result (λ v.
        IsJudgement h certificates.now v
        × Appends (W.sent sink.old) (W.sent sink.new) (verdict_text false v)) }
    ensures usable { IfOk result (λ _. W.broken sink.new ≡ false) }
    ensures failed { OnErr result (W.broken sink.new ≡ true) }
    ensures front { (h : List ℕ) → IsHistoryRead h history → OnErr result
        ((v : ReportVerdict) × IsJudgement h certificates.now v
        × WritesPrefix (W.sent sink.old) (W.sent sink.new) (verdict_text false v)) }
{
    let verdict = check_read(rt, alloc, history, certificates, workers);
    match write_verdict(&verdict, false, sink) {
        Ok(()) => Ok(verdict),
        Err(_) => Err(Failed),
    }
}

/// Reads both texts, the history first, judges them, and writes the lines of the verdict. Each text
/// is read to its end, or to one byte more than the longest that is judged. An error of a read or a
/// write is a failure, and is not tried again. The history's text is freed before the certificates
/// are read.
///
/// `Ok` has the verdict of `judge` on the bytes that were read. If an allocation fails inside
/// `judge`, the verdict is `NoMemory`, and is written as its line.
pub fn check_over<R: Threads + Sync, H: Source, C: Source, W: Sink>(
    rt: &R,
    alloc: Global,
    history: &mut H,
    certificates: &mut C,
    workers: u32,
    sink: &mut W,
) -> Result<Verdict, ToolFault>
    requires history { H.broken history.old ≡ false }
    requires certificates { C.broken certificates.old ≡ false }
    requires sink { W.broken sink.old ≡ false }
    ensures linearizable { IfOk result (λ v. OnYes v
        (IsLinearizableRead (H.remaining history.old) (H.remaining history.new))) }
    ensures judged { IfOk result
        (IsJudged (H.remaining history.old) (H.remaining history.new) (C.remaining certificates.old)
        (C.remaining certificates.new) (W.sent sink.old) (W.sent sink.new)) }
    ensures usable { IfOk result (λ _. W.broken sink.new ≡ false) }
    // X1
    ensures unread_history { IfErr result (λ e. e ≡ ToolFault.Read WhichText.History →
        (H.broken history.new ≡ true) × (certificates.new ≡ certificates.old)) }
    ensures unread_certificates { IfErr result (λ e. e ≡ ToolFault.Read WhichText.Certificates →
        (H.broken history.new ≡ false) × (C.broken certificates.new ≡ true)) }
    // `check_over` returns it only if that source refused a call.
    ensures history_refused { IfErr result (λ e. e ≡ ToolFault.Read WhichText.History →
        WasRefused H.remaining H.refuses history.old history.new) }
    ensures certificates_refused { IfErr result (λ e. e ≡ ToolFault.Read WhichText.Certificates →
        WasRefused C.remaining C.refuses certificates.old certificates.new) }
    // X2
    ensures unwritten { IfErr result (λ e. e ≡ ToolFault.Write → (W.broken sink.new ≡ true)
        × IsCutOff (H.remaining history.old) (H.remaining history.new)
        (C.remaining certificates.old) (C.remaining certificates.new) (W.sent sink.old)
        (W.sent sink.new)) }
    // X3
    ensures memory { IfErr result (λ e. e ≡ ToolFault.NoMemory →
        (H.broken history.new ≡ false) × (C.broken certificates.new ≡ false)) }
    ensures nothing_written { IfErr result (λ e. e ≢ ToolFault.Write → sink.new ≡ sink.old) }
{
    let (read, second) = match read_history_and_text(rt, alloc, history, certificates, workers) {
        Ok(texts) => texts,
        Err(unread) => return Err(fault_of_reading(unread)),
    };
    match check_and_write(rt, alloc, read, &second, workers, sink) {
        Ok(verdict) => Ok(verdict),
        Err(Failed) => Err(ToolFault::Write),
    }
}
