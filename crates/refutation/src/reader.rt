//! From forms to reasons.

ghost use Rattle.std.specs.Prelude.{◌≡◌, ◌≢◌, [], List, Some, Option, option_map, IfOk, IfErr};
ghost use Rattle.edn_reader.specs.View.{view, views};
ghost use Rattle.refutation.specs.declared.reason.Reason.{Reason};
ghost use Rattle.refutation.specs.Denotes as spec;
ghost use Rattle.refutation.specs.Denotes.{Denotes};
ghost use Rattle.refutation.specs.Faults.{IsReasonFault, IsFirstFault, AreReasonsSoundBefore};

use crate::Reason;
use crate::basis::read_basis;
use crate::cut::cuts;
use crate::fault::{ReasonFault, ReasonFaultKind};
use edn::{Form, value_at};
use std::alloc::{AllocError, Global};

/// Reads a form as a reason, if it is one.
///
/// An error: an allocation failed.
#[tactic(auto, using(edn_reader::proofs::Pairs::map_view))]
pub fn reason_in(alloc: Global, form: &Form) -> Result<Option<Reason>, AllocError>
    ensures { IfOk result (λ o. option_map spec.reason_seen o ≡ spec.reason_in (view form.now)) }
{
    let Form::Map(entries) = form else {
        return Ok(None);
    };
    let number = edn::natural(value_at(entries, b"object"));
    let Some(object) = edn::object_number(number) else {
        return Ok(None);
    };
    let Some(cuts) = cuts(alloc, value_at(entries, b"cuts"))? else {
        return Ok(None);
    };
    let counted = value_at(entries, b"count");
    match read_basis(counted, value_at(entries, b"search")) {
        Some(basis) => Ok(Some(Reason {
            object,
            cuts,
            basis,
        })),
        None => Ok(None),
    }
}

/// The reason that a form is, or why there is none.
fn next_reason(alloc: Global, form: &Form) -> Result<Reason, ReasonFaultKind>
    ensures own { IfOk result (λ r. spec.reason_in (view form.now) ≡ Some (spec.reason_seen r)) }
    ensures fault { IfErr result (λ k. k ≢ ReasonFaultKind.NoMemory →
        IsReasonFault [] (view form.now) k) }
{
    match reason_in(alloc, form) {
        Ok(Some(reason)) => Ok(reason),
        Ok(None) => Err(ReasonFaultKind::NotAReason),
        Err(_) => Err(ReasonFaultKind::NoMemory),
    }
}

/// Reads each form as a reason, in order. Several may be for one object.
///
/// The error names the first form that is no reason, or the one that was being read when the
/// allocation failed.
pub fn read_reasons(alloc: Global, forms: &[Form]) -> Result<Vec<Reason>, ReasonFault>
    ensures denotes { IfOk result (λ v. Denotes (views forms.now) v.items) }
    ensures fault { IfErr result (λ e. e.kind ≢ ReasonFaultKind.NoMemory
        → IsFirstFault (views forms.now) e) }
    // Such a fault means that the forms denote no reasons.
    ensures refused { IfErr result (λ e. e.kind ≢ ReasonFaultKind.NoMemory
        → (rs : List Reason) → Denotes (views forms.now) rs → ⊥) }
    // An allocation failed when nothing was wrong before this form.
    ensures memory { IfErr result (λ e. e.kind ≡ ReasonFaultKind.NoMemory
        → AreReasonsSoundBefore (views forms.now) e.form) }
{
    let mut reasons = Vec::new(alloc);
    for (place, form) in forms.iter().enumerate() {
        match next_reason(alloc, form) {
            Ok(reason) => match reasons.push(reason) {
                Ok(()) => {}
                Err(_) => return Err(ReasonFault {
                    kind: ReasonFaultKind::NoMemory,
                    form: place,
                }),
            },
            Err(kind) => return Err(ReasonFault { kind, form: place }),
        }
    }
    Ok(reasons)
}
