//! The check of reasons why a history is not linearizable.

ghost use Rattle.std.specs.Prelude.{◌≡◌};
ghost use Rattle.history_commands.specs.Refuted.{IsRefute};
ghost use Rattle.reading.specs.Texts.{IsNotLinearizableText};
ghost use Rattle.history_commands.specs.Outputs.{status_number};
ghost use Rattle.embedding.specs.Handed.{IsAnswered};
ghost use Rattle.embedding.specs.Steps as spec;

use crate::answer::answer;
use crate::steps::search_steps;
use history_commands::{Status, refute};
use std::alloc::Global;

/// Checks reasons why the history is not linearizable, and writes the lines of the answers. The
/// search of a part has a limit of `steps` steps. 4,294,967,295 means the default of the program,
/// 1,000,000.
///
/// 1: some reason shows that the history is not linearizable. 2: a text is malformed. 3: no reason
/// shows it, or an allocation failed.
#[unsafe(no_mangle)]
pub extern "C" fn fcbench_refute(
    alloc: Global,
    history: &[u8],
    reasons: &[u8],
    steps: u32,
    out: &mut [u8],
    needed: &mut usize,
) -> u32
    // If it returns 1, the history that the bytes denote is not linearizable.
    ensures refuted { result ≡ status_number Status.No → IsNotLinearizableText history.now }
    // The lines are the answers to the reasons, with their status, or an allocation failed.
    ensures answered { IsAnswered (IsRefute history.now reasons.now (spec.search_steps steps))
        result out.old out.new needed.new }
{
    answer(
        refute(alloc, history, reasons, search_steps(steps)),
        out,
        needed,
    )
}
