//! The check of a history by certificates, both in memory.

ghost use Rattle.std.specs.Prelude.{◌≡◌, false};
ghost use Rattle.file_commands.specs.Leaves.{Leaves};
ghost use Rattle.history_commands.specs.Checked.{IsCheck};
ghost use Rattle.history_commands.specs.Outputs.{IsVerdictOutput};

use edn::Sink;
use history_commands::{Status, status_of};
use reading::In;
use report::{Verdict, write_verdict};
use std::alloc::Global;
use std::thread::Threads;
use text_check::{ToolFault, check_over, judge};

/// Writes the lines of a verdict, and returns the exit status.
fn write_verdict_with_status<S: Sink>(verdict: &Verdict, sink: &mut S) -> u8
    requires working { S.broken sink.old ≡ false }
    ensures leaves { Leaves (IsVerdictOutput (λ v. v ≡ verdict.now))
        (S.sent sink.old) result (S.sent sink.new) (S.broken sink.new) }
{
    match write_verdict(verdict, false, sink) {
        Ok(()) => status_of(verdict).number(),
        Err(_) => Status::Failed.number(),
    }
}

/// Judges two texts in memory, writes the verdict, and returns the exit status.
pub(crate) fn check_bytes<R: Threads + Sync, S: Sink>(
    rt: &R,
    alloc: Global,
    history: &[u8],
    certificates: &[u8],
    workers: u32,
    sink: &mut S,
) -> u8
    requires working { S.broken sink.old ≡ false }
    ensures leaves { Leaves (IsCheck history.now certificates.now)
        (S.sent sink.old) result (S.sent sink.new) (S.broken sink.new) }
{
    let (mut first, mut second) = (In::new(history), In::new(certificates));
    match check_over(rt, alloc, &mut first, &mut second, workers, sink) {
        Ok(verdict) => status_of(&verdict).number(),
        Err(ToolFault::Write) => Status::Failed.number(),
        // A text could not be copied, and nothing is written yet. The texts are judged as they are.
        Err(ToolFault::Read(_) | ToolFault::NoMemory) => {
            write_verdict_with_status(&judge(rt, alloc, history, certificates, workers), sink)
        }
    }
}
