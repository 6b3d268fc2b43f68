//! What the bench does.

ghost use Rattle.std.specs.Prelude.{◌≡◌, false, true, IfOk, IfErr};
ghost use Rattle.reading.specs.Reads.{IsLinearizableRead, IsNotLinearizableRead};
ghost use Rattle.history_commands.specs.Outputs.{status_number};
ghost use Rattle.file_commands.specs.Leaves.{Leaves};
ghost use Rattle.file_commands.specs.OnFiles.{IsUnreadFile, IsUnreadOnly, OnText};
ghost use Rattle.bench_commands.specs.Performed.{IsPerformed, IsPerformedOn, says_no, says_yes};
ghost use Rattle.bench_commands.specs.Simulated.{IsSimulation};

use crate::check_bytes::check_bytes;
use crate::running::run;
use crate::simulating::play;
use command_line::Line;
use edn::{Sink, Source};
use file_commands::{Status, check_files, end_unread, search_file, write_output};
use history_commands::search;
use reading::{UnreadSource, WhichSource, read_text};
use std::alloc::Global;
use std::sync::Wait;
use std::thread::Threads;

/// Does the command on the bytes of its first and second file (empty if it has none), writes its
/// output, and returns the exit status:
///
/// - 0: yes, or each object has a certificate;
/// - 1: no, or an object is impossible;
/// - 2: a text is malformed, or a client of a schedule has not ended;
/// - 3: an allocation failed, a thread could not be started, or some object has no order and is not
///   impossible;
/// - 4: the output failed.
///
/// The program does commands by `perform_over`. This is for a caller that has both texts in memory.
pub fn perform<R: Threads + Wait + Sync, S: Sink>(
    rt: &R,
    alloc: Global,
    line: &Line,
    first: &[u8],
    second: &[u8],
    sink: &mut S,
) -> u8
    requires working { S.broken sink.old ≡ false }
    ensures performs { Leaves (IsPerformed line.now first.now second.now)
        (S.sent sink.old) result (S.sent sink.new) (S.broken sink.new) }
{
    match line {
        Line::Check(line) => check_bytes(rt, alloc, first, second, line.workers, sink),
        Line::Search(line) => {
            write_output(search(alloc, first, line.steps, line.try_first), sink)
        }
        Line::Run(options) => write_output(run(rt, alloc, *options), sink),
        Line::Simulate { .. } => write_output(play(alloc, first), sink),
    }
}

/// Plays the schedule in a file, writes the record and the verdict on it, and returns the exit
/// status.
fn simulate_file<F: Source, S: Sink>(
    alloc: Global,
    schedule: &mut F,
    sink: &mut S,
) -> Result<u8, WhichSource>
    requires schedule { F.broken schedule.old ≡ false }
    requires sink { S.broken sink.old ≡ false }
    ensures leaves { IfOk result (λ number. Leaves (OnText IsSimulation
        (F.remaining schedule.old) (F.remaining schedule.new))
        (S.sent sink.old) number (S.sent sink.new) (S.broken sink.new)) }
    ensures unread { IfErr result (IsUnreadOnly F.remaining F.broken F.refuses
        schedule.old schedule.new sink.old sink.new) }
{
    match read_text(alloc, schedule) {
        Ok(text) => Ok(write_output(play(alloc, &text), sink)),
        Err(fault) => end_unread(
            UnreadSource {
                which: WhichSource::First,
                fault,
            },
            sink,
        ),
    }
}

/// Runs the command on its files, in order, writes its output and returns the exit status, as
/// `perform` does. Reads each file to its end, or to one byte past the limit of a text. Does not
/// retry a failed read. Ignores a file that the command does not use.
pub fn perform_over<R: Threads + Wait + Sync, F: Source, G: Source, S: Sink>(
    rt: &R,
    alloc: Global,
    line: &Line,
    first: &mut F,
    second: &mut G,
    sink: &mut S,
) -> Result<u8, WhichSource>
    requires first { F.broken first.old ≡ false }
    requires second { G.broken second.old ≡ false }
    requires working { S.broken sink.old ≡ false }
    ensures linearizable { IfOk result (λ number. says_yes line.now ≡ true →
        number ≡ status_number Status.Yes →
        IsLinearizableRead (F.remaining first.old) (F.remaining first.new)) }
    ensures refuted { IfOk result (λ number. says_no line.now ≡ true →
        number ≡ status_number Status.No →
        IsNotLinearizableRead (F.remaining first.old) (F.remaining first.new)) }
    ensures performs { IfOk result (λ number. Leaves (IsPerformedOn line.now
        (F.remaining first.old) (F.remaining first.new)
        (G.remaining second.old) (G.remaining second.new))
        (S.sent sink.old) number (S.sent sink.new) (S.broken sink.new)) }
    // The first text that could not be read is named, and nothing is written.
    ensures unread { IfErr result (IsUnreadFile F.remaining F.broken F.refuses
        G.remaining G.broken G.refuses first.old first.new second.old second.new
        sink.old sink.new) }
{
    match line {
        Line::Check(line) => check_files(rt, alloc, first, second, line.workers, sink),
        Line::Search(line) => search_file(alloc, first, line.steps, line.try_first, sink),
        Line::Run(options) => Ok(write_output(run(rt, alloc, *options), sink)),
        Line::Simulate { .. } => simulate_file(alloc, first, sink),
    }
}
