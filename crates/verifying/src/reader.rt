//! From forms to claims.

ghost use Rattle.std.specs.Prelude.{◌≡◌, ◌≢◌, [], List, Some, Option, option_map, IfOk, IfErr};
ghost use Rattle.edn_reader.specs.View.{view, views};
ghost use Rattle.verifying.specs.declared.claim.Claim.{Claim};
ghost use Rattle.verifying.specs.Denotes as spec;
ghost use Rattle.verifying.specs.Denotes.{Denotes};
ghost use Rattle.verifying.specs.Faults.{IsClaimFault, IsFirstFault, AreClaimsSoundBefore};

use crate::claim::Claim;
use crate::fault::{ClaimFault, ClaimFaultKind};
use crate::note::note;
use certificate::certificate_in;
use edn::{Form, value_at};
use refutation::reason_in;
use std::alloc::{AllocError, Global};

/// Whether a form has the key `:order`.
#[tactic(auto, using(edn_reader::proofs::Pairs::map_view))]
fn names_order(form: &Form) -> bool
    ensures { result ≡ spec.names_order (view form.now) }
{
    match form {
        Form::Map(entries) => value_at(entries, b"order").is_some(),
        _ => false,
    }
}

/// The sentence of a form.
#[tactic(auto, using(edn_reader::proofs::Pairs::map_view))]
fn note_of(alloc: Global, form: &Form) -> Result<Option<Vec<u8>>, AllocError>
    ensures { IfOk result (λ o. option_map (λ v. v.items) o ≡ spec.note_of (view form.now)) }
{
    match form {
        Form::Map(entries) => note(alloc, value_at(entries, b"note")),
        _ => Ok(None),
    }
}

/// The claim that a form is.
fn claim_in(alloc: Global, form: &Form) -> Result<Option<Claim>, AllocError>
    ensures { IfOk result (λ o. option_map spec.claim_seen o ≡ spec.claim_in (view form.now)) }
{
    if names_order(form) {
        return match certificate_in(alloc, form)? {
            Some(certificate) => Ok(Some(Claim::Order(certificate))),
            None => Ok(None),
        };
    }
    match reason_in(alloc, form)? {
        Some(reason) => {
            let note = note_of(alloc, form)?;
            Ok(Some(Claim::Reason { reason, note }))
        }
        None => Ok(None),
    }
}

/// What is wrong with a form that is no claim.
fn fault_of(form: &Form) -> ClaimFaultKind
    requires { spec.claim_in (view form.now) ≡ None }
    ensures fault { IsClaimFault [] (view form.now) result }
    ensures found { result ≢ ClaimFaultKind.NoMemory }
{
    if names_order(form) {
        ClaimFaultKind::NotACertificate
    } else {
        ClaimFaultKind::NotAReason
    }
}

/// The claim that a form is, or why there is none.
fn next_claim(alloc: Global, form: &Form) -> Result<Claim, ClaimFaultKind>
    ensures own { IfOk result (λ c. spec.claim_in (view form.now) ≡ Some (spec.claim_seen c)) }
    ensures fault { IfErr result (λ k. k ≢ ClaimFaultKind.NoMemory →
        IsClaimFault [] (view form.now) k) }
{
    match claim_in(alloc, form) {
        Ok(Some(claim)) => Ok(claim),
        Ok(None) => Err(fault_of(form)),
        Err(_) => Err(ClaimFaultKind::NoMemory),
    }
}

/// Reads each form as a claim, in order. Several may be on one object.
///
/// The error names the first form that is no claim, or the one that was being read when the
/// allocation failed.
pub fn read_claims(alloc: Global, forms: &[Form]) -> Result<Vec<Claim>, ClaimFault>
    ensures denotes { IfOk result (λ v. Denotes (views forms.now) v.items) }
    ensures fault { IfErr result (λ e. e.kind ≢ ClaimFaultKind.NoMemory
        → IsFirstFault (views forms.now) e) }
    // Such a fault means that the forms denote no claims.
    ensures refused { IfErr result (λ e. e.kind ≢ ClaimFaultKind.NoMemory
        → (cs : List Claim) → Denotes (views forms.now) cs → ⊥) }
    // An allocation failed when nothing was wrong before this form.
    ensures memory { IfErr result (λ e. e.kind ≡ ClaimFaultKind.NoMemory
        → AreClaimsSoundBefore (views forms.now) e.form) }
{
    let mut claims = Vec::new(alloc);
    for (place, form) in forms.iter().enumerate() {
        match next_claim(alloc, form) {
            Ok(claim) => match claims.push(claim) {
                Ok(()) => {}
                Err(_) => return Err(ClaimFault {
                    kind: ClaimFaultKind::NoMemory,
                    form: place,
                }),
            },
            Err(kind) => return Err(ClaimFault { kind, form: place }),
        }
    }
    Ok(claims)
}
