//! The lines of a verdict, written.

ghost use Rattle.std.specs.Prelude.{◌≡◌, ◌++◌, false, true, IfErr};
ghost use Rattle.edn.specs.Sent.{Writes};
ghost use Rattle.report.specs.Lines as text;
ghost use Rattle.report.specs.Lines.{comment_text};

use crate::lines::{fault_line, kind_line, no_memory_line, refusal_line, total_line};
use crate::segments::write_line;
use crate::verdict::{KindCount, Summary, Verdict};
use edn::{Failed, Sink, WriteFault};

fn write_kinds<S: Sink>(kinds: &[KindCount], commented: bool, sink: &mut S) -> Result<(), Failed>
    requires { S.broken sink.old ≡ false }
    ensures sent { Writes result (S.sent sink.old) (S.sent sink.new) (S.broken sink.new)
        (text.kind_lines commented kinds.now) }
{
    for kind in kinds {
        write_line(commented, &kind_line(kind), sink)?;
    }
    Ok(())
}

fn write_summary<S: Sink>(summary: &Summary, commented: bool, sink: &mut S) -> Result<(), Failed>
    requires { S.broken sink.old ≡ false }
    ensures sent { Writes result (S.sent sink.old) (S.sent sink.new) (S.broken sink.new)
        (text.verdict_text commented (Verdict.Yes summary.now)) }
{
    write_line(commented, &total_line(summary), sink)?;
    write_kinds(&summary.kinds, commented, sink)
}

fn write_lines<S: Sink>(verdict: &Verdict, commented: bool, sink: &mut S) -> Result<(), Failed>
    requires { S.broken sink.old ≡ false }
    ensures sent { Writes result (S.sent sink.old) (S.sent sink.new) (S.broken sink.new)
        (text.verdict_text commented verdict.now) }
{
    let line = match verdict {
        Verdict::Yes(summary) => return write_summary(summary, commented, sink),
        Verdict::No(refusal) => refusal_line(refusal),
        Verdict::Malformed(fault) => fault_line(fault),
        Verdict::NoMemory => no_memory_line(),
    };
    write_line(commented, &line, sink)
}

/// Writes the lines of a verdict, each after `; ` if they are comments, without taking memory.
/// `Device` is the only error.
pub fn write_verdict<S: Sink>(
    verdict: &Verdict,
    commented: bool,
    sink: &mut S,
) -> Result<(), WriteFault>
    requires working { S.broken sink.old ≡ false }
    ensures sent { Writes result (S.sent sink.old) (S.sent sink.new) (S.broken sink.new)
        (text.verdict_text commented verdict.now) }
    ensures device { IfErr result (λ e. e ≡ WriteFault.Device) }
{
    write_lines(verdict, commented, sink)?;
    Ok(())
}
