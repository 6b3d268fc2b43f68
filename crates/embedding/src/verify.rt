//! The verification of a history by evidence from any source.

ghost use Rattle.std.specs.Prelude.{◌≡◌};
ghost use Rattle.reading.specs.Texts.{IsLinearizableText, IsNotLinearizableText};
ghost use Rattle.history_commands.specs.Verified.{IsVerification};
ghost use Rattle.history_commands.specs.Outputs.{status_number};
ghost use Rattle.embedding.specs.Handed.{IsAnswered};
ghost use Rattle.embedding.specs.Steps as spec;

use crate::answer::answer;
use crate::steps::search_steps;
use history_commands::{Status, verify};
use std::alloc::Global;

/// Checks evidence, from any source and whatever it holds: orders, reasons and searches for the
/// objects of the history. Judges the history by what is shown, and writes the lines of the
/// verification. `steps` is the limit of a search if the evidence names none; 4,294,967,295 means
/// the program's default, 1,000,000.
///
/// 0: the history is linearizable. 1: it is not. 2: it is malformed. 3: undecided, malformed
/// evidence, or a failed allocation.
#[unsafe(no_mangle)]
pub extern "C" fn fcbench_verify(
    alloc: Global,
    history: &[u8],
    evidence: &[u8],
    steps: u32,
    out: &mut [u8],
    needed: &mut usize,
) -> u32
    // The headline: if it returns 0, the history that the bytes denote is linearizable.
    ensures linearizable { result ≡ status_number Status.Yes → IsLinearizableText history.now }
    // If it returns 1, that history is not linearizable.
    ensures refuted { result ≡ status_number Status.No → IsNotLinearizableText history.now }
    // The lines are those of a verification with this status, or an allocation failed.
    ensures verified { IsAnswered
        (IsVerification history.now evidence.now (spec.search_steps steps))
        result out.old out.new needed.new }
{
    answer(
        verify(alloc, history, evidence, search_steps(steps)),
        out,
        needed,
    )
}
