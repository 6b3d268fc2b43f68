//! The commands on a history, on files: each is read once, from its beginning to its end, the
//! history first.

ghost use Rattle.std.specs.Prelude.{◌≡◌, false, true, IfOk, IfErr};
ghost use Rattle.reading.specs.Reads.{IsLinearizableRead, IsNotLinearizableRead};
ghost use Rattle.history_commands.specs.Checked.{IsCheck};
ghost use Rattle.history_commands.specs.Outputs.{status_number};
ghost use Rattle.history_commands.specs.Refuted.{IsRefute};
ghost use Rattle.history_commands.specs.Searches.{IsSearchResult};
ghost use Rattle.history_commands.specs.Verified.{IsVerification};
ghost use Rattle.file_commands.specs.Leaves.{Leaves};
ghost use Rattle.file_commands.specs.OnFiles.{IsPerformedOn, IsUnreadFile, IsUnreadOnly};
ghost use Rattle.file_commands.specs.OnFiles.{OnText, OnTexts, says_no, says_yes};

use crate::unread::end_unread;
use crate::written::write_output;
use command_line::FilesLine;
use edn::{Sink, Source};
use history_commands::{Status, refute_history, search_history, status_of, verify_history};
use order_search::TryFirst;
use reading::{
    ReadFault, UnreadSource, WhichSource, history_of_text, read_history_and_text, read_text,
};
use std::alloc::{AllocError, Global};
use std::thread::Threads;
use text_check::{ToolFault, WhichText, check_over};

/// Checks the history in one file by the certificates in another, writes the verdict, and returns
/// the exit status.
pub fn check_files<R: Threads + Sync, H: Source, C: Source, S: Sink>(
    rt: &R,
    alloc: Global,
    history: &mut H,
    certificates: &mut C,
    workers: u32,
    sink: &mut S,
) -> Result<u8, WhichSource>
    requires history { H.broken history.old ≡ false }
    requires certificates { C.broken certificates.old ≡ false }
    requires sink { S.broken sink.old ≡ false }
    ensures leaves { IfOk result (λ number. Leaves (OnTexts IsCheck
        (H.remaining history.old) (H.remaining history.new)
        (C.remaining certificates.old) (C.remaining certificates.new))
        (S.sent sink.old) number (S.sent sink.new) (S.broken sink.new)) }
    ensures unread { IfErr result (IsUnreadFile H.remaining H.broken H.refuses
        C.remaining C.broken C.refuses history.old history.new
        certificates.old certificates.new sink.old sink.new) }
{
    match check_over(rt, alloc, history, certificates, workers, sink) {
        Ok(verdict) => Ok(status_of(&verdict).number()),
        Err(ToolFault::Read(WhichText::History)) => Err(WhichSource::First),
        Err(ToolFault::Read(WhichText::Certificates)) => Err(WhichSource::Second),
        Err(ToolFault::Write) => Ok(Status::Failed.number()),
        Err(ToolFault::NoMemory) => Ok(write_output(Err(AllocError), sink)),
    }
}

/// Searches for certificates of the history in a file, with at most this number of steps for each
/// object, writes what was found, and returns the exit status.
pub fn search_file<H: Source, S: Sink>(
    alloc: Global,
    history: &mut H,
    steps: u32,
    try_first: TryFirst,
    sink: &mut S,
) -> Result<u8, WhichSource>
    requires history { H.broken history.old ≡ false }
    requires sink { S.broken sink.old ≡ false }
    ensures leaves { IfOk result (λ number. Leaves (OnText (λ text. IsSearchResult text steps)
        (H.remaining history.old) (H.remaining history.new))
        (S.sent sink.old) number (S.sent sink.new) (S.broken sink.new)) }
    ensures unread { IfErr result (IsUnreadOnly H.remaining H.broken H.refuses
        history.old history.new sink.old sink.new) }
{
    let text = match read_text(alloc, history) {
        Ok(text) => text,
        Err(fault) => return end_unread(
            UnreadSource {
                which: WhichSource::First,
                fault,
            },
            sink,
        ),
    };
    let made = history_of_text(alloc, &text);
    drop(text);
    Ok(write_output(search_history(alloc, made, steps, try_first), sink))
}

/// Checks the reasons in a file on the history in another, each with a search of at most this
/// number of steps, writes the answers, and returns the exit status.
fn refute_files<R: Threads + Sync, H: Source, T: Source, S: Sink>(
    rt: &R,
    alloc: Global,
    history: &mut H,
    reasons: &mut T,
    steps: u32,
    sink: &mut S,
) -> Result<u8, WhichSource>
    requires history { H.broken history.old ≡ false }
    requires reasons { T.broken reasons.old ≡ false }
    requires sink { S.broken sink.old ≡ false }
    ensures leaves { IfOk result (λ number. Leaves
        (OnTexts (λ first second. IsRefute first second steps)
        (H.remaining history.old) (H.remaining history.new)
        (T.remaining reasons.old) (T.remaining reasons.new))
        (S.sent sink.old) number (S.sent sink.new) (S.broken sink.new)) }
    ensures unread { IfErr result (IsUnreadFile H.remaining H.broken H.refuses
        T.remaining T.broken T.refuses history.old history.new
        reasons.old reasons.new sink.old sink.new) }
{
    match read_history_and_text(rt, alloc, history, reasons, 1) {
        Ok((made, text)) => Ok(write_output(refute_history(alloc, made, &text, steps), sink)),
        Err(unread) => end_unread(unread, sink),
    }
}

/// Judges the history in a file by the evidence in another, with at most this number of steps for a
/// search without a limit of its own, writes the lines, and returns the exit status. The history is
/// read by this many workers, and before the evidence, so that the finder can go on working
/// meanwhile.
fn verify_files<R: Threads + Sync, H: Source, E: Source, S: Sink>(
    rt: &R,
    alloc: Global,
    history: &mut H,
    evidence: &mut E,
    steps: u32,
    workers: u32,
    sink: &mut S,
) -> Result<u8, WhichSource>
    requires history { H.broken history.old ≡ false }
    requires evidence { E.broken evidence.old ≡ false }
    requires sink { S.broken sink.old ≡ false }
    ensures leaves { IfOk result (λ number. Leaves
        (OnTexts (λ first second. IsVerification first second steps)
        (H.remaining history.old) (H.remaining history.new)
        (E.remaining evidence.old) (E.remaining evidence.new))
        (S.sent sink.old) number (S.sent sink.new) (S.broken sink.new)) }
    ensures unread { IfErr result (IsUnreadFile H.remaining H.broken H.refuses
        E.remaining E.broken E.refuses history.old history.new
        evidence.old evidence.new sink.old sink.new) }
{
    match read_history_and_text(rt, alloc, history, evidence, workers) {
        Ok((made, text)) => Ok(write_output(verify_history(alloc, made, &text, steps), sink)),
        Err(unread) => end_unread(unread, sink),
    }
}

/// Does a command on a history in the first file, with the second file if the command has one,
/// writes its output, and returns the exit status:
///
/// - 0: yes, or each object has a certificate;
/// - 1: no, or an object is impossible;
/// - 2: a text other than evidence is malformed;
/// - 3: an allocation failed, some object has neither an order nor a reason that holds, no reason
///   shows that the history is not linearizable, or evidence is malformed;
/// - 4: the output failed.
///
/// Reads each file to its end, or to one byte past the limit of a text, and does not try again a
/// read that failed. It frees the history's text as soon as the history is made from it.
pub fn perform_on_files<R: Threads + Sync, F: Source, G: Source, S: Sink>(
    rt: &R,
    alloc: Global,
    line: &FilesLine,
    first: &mut F,
    second: &mut G,
    sink: &mut S,
) -> Result<u8, WhichSource>
    requires first { F.broken first.old ≡ false }
    requires second { G.broken second.old ≡ false }
    requires working { S.broken sink.old ≡ false }
    ensures linearizable { IfOk result (λ number. says_yes line.now ≡ true →
        number ≡ status_number Status.Yes →
        IsLinearizableRead (F.remaining first.old) (F.remaining first.new)) }
    ensures refuted { IfOk result (λ number. says_no line.now ≡ true →
        number ≡ status_number Status.No →
        IsNotLinearizableRead (F.remaining first.old) (F.remaining first.new)) }
    ensures performs { IfOk result (λ number. Leaves (IsPerformedOn line.now
        (F.remaining first.old) (F.remaining first.new)
        (G.remaining second.old) (G.remaining second.new))
        (S.sent sink.old) number (S.sent sink.new) (S.broken sink.new)) }
    // The first file that could not be read is named, and nothing is written.
    ensures unread { IfErr result (IsUnreadFile F.remaining F.broken F.refuses
        G.remaining G.broken G.refuses first.old first.new second.old second.new
        sink.old sink.new) }
{
    match line {
        FilesLine::Check(line) => check_files(rt, alloc, first, second, line.workers, sink),
        FilesLine::Search(line) => search_file(alloc, first, line.steps, line.try_first, sink),
        FilesLine::Refute(line) => refute_files(rt, alloc, first, second, line.steps, sink),
        FilesLine::Verify(line) => {
            verify_files(rt, alloc, first, second, line.steps, line.workers, sink)
        }
    }
}
