//! The history that a text denotes.

ghost use Rattle.std.specs.Prelude.{◌≡◌, List, IfOk, IfErr};
ghost use Rattle.events.specs.declared.event.Event.{Event};
ghost use Rattle.edn_reader.specs.Sound.{IsShort};
ghost use Rattle.reading.specs.Texts.{DenotesHistory, IsHistoryFault};

use crate::text_failure::{Fault, TextFailure, failure_of_fault};
use crate::text_laws::one_history;
use history::{History, TextFault, read_history_text};
use std::alloc::Global;

/// Returns the history that a text denotes, or the first fault of the text.
pub fn history_of_text(alloc: Global, text: &[u8]) -> Result<History, TextFailure>
    ensures denotes { IfOk result (λ es. DenotesHistory text.now es) }
    ensures only { IfOk result (λ es. (fs : List Event) → DenotesHistory text.now fs → fs ≡ es) }
    ensures short { IfOk result (λ _. IsShort text.now) }
    ensures stop { IfErr result (IsHistoryFault text.now) }
    ensures accepts { IfErr result (λ s. (es : List Event) → DenotesHistory text.now es →
        IsShort text.now →
        s ≡ TextFailure.NoMemory) }
{
    // This does nothing: it says that the text denotes one history at most.
    one_history();
    match read_history_text(alloc, text) {
        Ok(history) => Ok(history),
        Err(TextFault::Text(fault)) => Err(failure_of_fault(Fault::HistoryText(fault))),
        Err(TextFault::Maps(fault)) => Err(failure_of_fault(Fault::HistoryMaps(fault))),
    }
}
