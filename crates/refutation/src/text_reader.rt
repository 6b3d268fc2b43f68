//! From a text to reasons.

ghost use Rattle.std.specs.Prelude.{List, IfOk, IfErr, OnOk};
ghost use Rattle.edn_reader.specs.Datum.{Datum};
ghost use Rattle.edn_reader.specs.Sound.{IsShort};
ghost use Rattle.edn_reader.specs.Spells.{Spells};
ghost use Rattle.refutation.specs.Denotes.{Denotes};
ghost use Rattle.refutation.specs.Texts.{IsReasonTextFault};

use crate::Reason;
use crate::fault::ReasonTextFault;
use crate::reader::read_reasons;
use edn::read_forms;
use std::alloc::Global;

/// Reads the reasons that the text denotes, each element being one, or returns what is wrong. What
/// is wrong with the text comes before what is wrong with an element.
pub fn read_reasons_text(alloc: Global, text: &[u8]) -> Result<Vec<Reason>, ReasonTextFault>
    ensures denotes { IfOk result (λ v.
        (ds : List Datum) × Spells ds text.now × Denotes ds v.items) }
    ensures short { OnOk result (IsShort text.now) }
    ensures fault { IfErr result (IsReasonTextFault text.now) }
{
    let forms = match read_forms(alloc, text) {
        Ok(forms) => forms,
        Err(fault) => return Err(ReasonTextFault::Text(fault)),
    };
    match read_reasons(alloc, &forms) {
        Ok(reasons) => Ok(reasons),
        Err(fault) => Err(ReasonTextFault::Forms(fault)),
    }
}
