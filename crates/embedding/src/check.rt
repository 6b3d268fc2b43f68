//! The check of a history by certificates.

ghost use Rattle.std.specs.Prelude.{◌≡◌, ◌⊎◌};
ghost use Rattle.text_check.specs.Texts.{AreValidTexts};
ghost use Rattle.reading.specs.Texts.{IsLinearizableText};
ghost use Rattle.history_commands.specs.Checked.{IsCheck};
ghost use Rattle.history_commands.specs.Outputs.{status_number};
ghost use Rattle.embedding.specs.Handed.{IsAnswered};

use crate::answer::answer;
use history_commands::{Status, verdict_output};
use std::alloc::Global;
use text_check::check_alone;

/// Judges a history by certificates, and writes the lines of the verdict, or as much of them as
/// there is room for. `needed` is how long they are.
///
/// 0: the history is linearizable. 1: the certificates are refused. 2: a text is malformed. 3:
/// an allocation failed.
#[unsafe(no_mangle)]
pub extern "C" fn fcbench_check(
    alloc: Global,
    history: &[u8],
    certificates: &[u8],
    out: &mut [u8],
    needed: &mut usize,
) -> u32
    // The headline: if it returns 0, the history that the bytes denote is linearizable.
    ensures linearizable { result ≡ status_number Status.Yes → IsLinearizableText history.now }
    // The lines are those of a verdict that holds, with its status, or an allocation failed.
    ensures checked { IsAnswered (IsCheck history.now certificates.now)
        result out.old out.new needed.new }
    // Valid certificates are accepted, unless an allocation fails.
    ensures accepts { AreValidTexts history.now certificates.now →
        (result ≡ status_number Status.Yes) ⊎ (result ≡ status_number Status.OutOfMemory) }
{
    let verdict = check_alone(alloc, history, certificates);
    answer(verdict_output(alloc, &verdict), out, needed)
}
