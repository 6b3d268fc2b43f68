//! From a text to claims.

ghost use Rattle.std.specs.Prelude.{List, IfOk, IfErr, OnOk};
ghost use Rattle.edn_reader.specs.Datum.{Datum};
ghost use Rattle.edn_reader.specs.Sound.{IsShort};
ghost use Rattle.edn_reader.specs.Spells.{Spells};
ghost use Rattle.verifying.specs.Denotes.{Denotes};
ghost use Rattle.verifying.specs.Texts.{IsClaimTextFault};

use crate::claim::Claim;
use crate::fault::ClaimTextFault;
use crate::reader::read_claims;
use edn::read_forms;
use std::alloc::Global;

/// Reads the claims that the text denotes, each element being one, or returns what is wrong. What
/// is wrong with the text comes before what is wrong with an element.
pub fn read_claims_text(alloc: Global, text: &[u8]) -> Result<Vec<Claim>, ClaimTextFault>
    ensures denotes { IfOk result (λ v.
        (ds : List Datum) × Spells ds text.now × Denotes ds v.items) }
    ensures short { OnOk result (IsShort text.now) }
    ensures fault { IfErr result (IsClaimTextFault text.now) }
{
    let forms = match read_forms(alloc, text) {
        Ok(forms) => forms,
        Err(fault) => return Err(ClaimTextFault::Text(fault)),
    };
    match read_claims(alloc, &forms) {
        Ok(claims) => Ok(claims),
        Err(fault) => Err(ClaimTextFault::Forms(fault)),
    }
}
