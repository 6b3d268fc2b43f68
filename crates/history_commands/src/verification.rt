//! The verification of a history by claims, from any source: the claims are checked, and the
//! history is judged by what they show. If an object has no order, the lines say why.

ghost use Rattle.std.specs.Prelude.{◌≡◌, ◌⊎◌, ◌++◌, ℕ, List, true, false, All, IfOk, OnOk};
ghost use Rattle.std.specs.Prelude.{IsSome, codes, decimal};
ghost use Rattle.std.specs.List.{list_all};
ghost use Rattle.checker.specs.Refusals.{AreValid};
ghost use Rattle.reading.specs.Texts.{IsHistoryRead};
ghost use Rattle.verifying.specs.declared.claim.Claim.{Claim};
ghost use Rattle.verifying.specs.Decisions.{AreDecisionsOn, certificate_decided};
ghost use Rattle.verifying.specs.Decisions.{certificates_decided, is_order};
ghost use Rattle.history_commands.specs.Outputs.{IsExactly};
ghost use Rattle.history_commands.specs.Verified as spec;
ghost use Rattle.history_commands.specs.Verified.{IsVerifiedOutput, DenotesClaims, IsEvidenceFault};
ghost use Rattle.history_commands.specs.Verified.{IsOfClaimText, IsVerdictBy, IsVerification};
ghost use Rattle.history_commands.specs.Verified.{impossible_lines, note_line};

use crate::answers::{Answer, are_all_found, output_of};
use crate::lines::{line_with_place, push_object_line, push_steps};
use crate::output::{Output, verdict_output};
use crate::status::Status;
use edn::{FaultKind, push_natural};
use history::History;
use locality::named_objects;
use reading::{TextFailure, history_of_text};
use reason_report::{push_operations, push_reason};
use report::{Verdict, verdict_on_check};
use std::alloc::{AllocError, Global};
use verifying::{
    Claim, ClaimFaultKind, ClaimTextFault, Decision, ShownReason, decide_by_claims,
    read_claims_text,
};

/// The code of what is wrong with an element.
fn code_of(kind: ClaimFaultKind) -> &'static [u8]
    ensures { result.now ≡ spec.code_of kind }
{
    match kind {
        ClaimFaultKind::NotACertificate => b"K1",
        ClaimFaultKind::NotAReason => b"N1",
        ClaimFaultKind::NoMemory => b"",
    }
}

/// The line that says what is wrong with an element of the evidence.
fn form_fault_line(alloc: Global, kind: ClaimFaultKind, form: usize) -> Result<Vec<u8>, AllocError>
    ensures { IfOk result (λ v. v.items ≡ codes "malformed evidence: "
        ++ (spec.code_of kind ++ (codes " at form " ++ (decimal form ++ codes "\n")))) }
{
    let mut text = Vec::new(alloc);
    text.extend_from_slice(b"malformed evidence: ")?;
    text.extend_from_slice(code_of(kind))?;
    text.extend_from_slice(b" at form ")?;
    push_natural(&mut text, form as u64)?;
    text.extend_from_slice(b"\n")?;
    Ok(text)
}

/// The line that says what is wrong with the evidence.
fn fault_line(alloc: Global, fault: ClaimTextFault) -> Result<Vec<u8>, AllocError>
    ensures { IfOk result (λ v. v.items ≡ spec.evidence_fault_line fault) }
{
    match fault {
        ClaimTextFault::Text(e) => line_with_place(
            alloc,
            b"malformed evidence: E",
            e.kind.number(),
            b" at byte ",
            e.place,
        ),
        ClaimTextFault::Forms(f) => form_fault_line(alloc, f.kind, f.form),
    }
}

/// Whether an allocation failed.
fn is_allocation_failure(fault: ClaimTextFault) -> bool
    ensures { result ≡ false → IsOfClaimText fault }
{
    match fault {
        ClaimTextFault::Text(e) => matches!(e.kind, FaultKind::NoMemory),
        ClaimTextFault::Forms(f) => matches!(f.kind, ClaimFaultKind::NoMemory),
    }
}

/// The output for evidence that denotes no claims.
pub(crate) fn refuse_evidence(alloc: Global, fault: ClaimTextFault) -> Result<Output, AllocError>
    ensures { IfOk result (λ o. IsOfClaimText fault
        × IsExactly Status.Undecided (spec.evidence_fault_line fault) o.status o.text.items) }
{
    if is_allocation_failure(fault) {
        return Err(AllocError);
    }
    Ok(Output {
        status: Status::Undecided,
        text: fault_line(alloc, fault)?,
    })
}

/// The line of the sentence that was claimed with a reason, if there is one.
fn push_note(text: &mut Vec<u8>, note: &Option<Vec<u8>>) -> Result<(), AllocError>
    ensures { OnOk result (text.new.items ≡ text.old.items ++ note_line note.now) }
{
    let Some(note) = note else {
        return Ok(());
    };
    text.extend_from_slice(b"; ")?;
    text.extend_from_slice(note)?;
    text.extend_from_slice(b"\n")
}

/// Writes the lines for an impossible object: that it is impossible, the sentence, the operations
/// of the part, and the reason that names it.
fn push_impossible(
    alloc: Global,
    text: &mut Vec<u8>,
    history: &History,
    object: u32,
    refuted: &ShownReason,
) -> Result<(), AllocError>
    ensures { OnOk result (text.new.items ≡ text.old.items
        ++ impossible_lines history.now object refuted.now) }
{
    push_object_line(text, object, b": impossible\n")?;
    push_note(text, &refuted.note)?;
    push_operations(text, true, history, &refuted.part)?;
    push_reason(alloc, text, true, &refuted.reason)
}

impl Answer for Decision {
    ghost use Rattle.verifying.specs.Decisions.{is_impossible, is_order};
    ghost use Rattle.history_commands.specs.Verified.{decision_lines};

    ghost impossible = { is_impossible };

    ghost found = { is_order };

    ghost lines = { decision_lines };

    fn is_impossible(&self) -> bool {
        matches!(self, Decision::Impossible(_))
    }

    fn is_found(&self) -> bool {
        matches!(self, Decision::Order(_))
    }

    /// Appends the lines on the object, if it has no order.
    fn push_lines(
        &self,
        alloc: Global,
        text: &mut Vec<u8>,
        history: &History,
        object: u32,
    ) -> Result<(), AllocError> {
        match self {
            Decision::Order(_) => Ok(()),
            Decision::Impossible(refuted) => {
                push_impossible(alloc, text, history, object, refuted)
            }
            Decision::OutOfSteps(steps) => push_steps(text, object, *steps),
            Decision::NoMemory => push_object_line(text, object, b": out of memory\n"),
            Decision::Open => push_object_line(text, object, b": open\n"),
        }
    }
}

/// The verdict if each object has an order.
fn verdict_of(alloc: Global, history: &History, answers: &[(u32, Decision)]) -> Verdict
    requires all { list_all (λ a. is_order a.1) answers.now ≡ true }
    requires valid { AreValid history.now (certificates_decided answers.now) }
    ensures { (claims : List Claim) (limit : ℕ) →
        AreDecisionsOn history.now claims limit answers.now →
        IsVerdictBy history.now claims limit result }
{
    // These two do nothing: they say that valid certificates suffice.
    history.events();
    named_objects();
    // Each order was checked when it was decided on, so the check of all has passed.
    verdict_on_check(alloc, history, Ok(()))
}

/// The output of the decisions on all objects of the history: a verdict, if each has an
/// order.
fn judge_decisions(
    alloc: Global,
    history: &History,
    answers: &[(u32, Decision)],
) -> Result<Output, AllocError>
    requires valid { All (λ a. IsSome (certificate_decided a.1)) answers.now
        → AreValid history.now (certificates_decided answers.now) }
    ensures { (claims : List Claim) (limit : ℕ) →
        AreDecisionsOn history.now claims limit answers.now →
        IfOk result (λ o. IsVerifiedOutput history.now claims limit o.status o.text.items) }
{
    if are_all_found(answers) {
        return verdict_output(alloc, &verdict_of(alloc, history, answers));
    }
    output_of(alloc, history, answers)
}

/// Checks the claims on a history. `steps` is the limit of a search if its claim names none.
fn verify_claims(
    alloc: Global,
    history: &History,
    claims: Vec<Claim>,
    steps: u32,
) -> Result<Output, AllocError>
    ensures { IfOk result (λ o.
        IsVerifiedOutput history.now claims.items steps o.status o.text.items) }
{
    let answers = decide_by_claims(alloc, history, claims, u64::from(steps))?;
    judge_decisions(alloc, history, &answers)
}

/// Checks the claims that a text denotes, or says why it denotes none.
fn verify_by_text(
    alloc: Global,
    history: &History,
    evidence: &[u8],
    steps: u32,
) -> Result<Output, AllocError>
    ensures { IfOk result (λ o. ((claims : List Claim) × DenotesClaims evidence.now claims
        × IsVerifiedOutput history.now claims steps o.status o.text.items)
        ⊎ IsEvidenceFault evidence.now o.status o.text.items) }
{
    match read_claims_text(alloc, evidence) {
        Ok(claims) => verify_claims(alloc, history, claims, steps),
        Err(fault) => refuse_evidence(alloc, fault),
    }
}

/// Checks the claims in a text, which may be any bytes, on a history that was read from another
/// text, and judges the history by them; or says what stopped its reading. The history comes as a
/// result, since the evidence is read after it. `steps` is the limit of a search if its claim names
/// none.
pub fn verify_history(
    alloc: Global,
    history: Result<History, TextFailure>,
    evidence: &[u8],
    steps: u32,
) -> Result<Output, AllocError>
    ensures { (h : List ℕ) → IsHistoryRead h history → IfOk result (λ o.
        IsVerification h evidence.now steps o.status o.text.items) }
{
    match history {
        Ok(history) => verify_by_text(alloc, &history, evidence, steps),
        Err(stop) => verdict_output(alloc, &Verdict::from(stop)),
    }
}

/// Checks the claims in one text, which may be any bytes, on the history in another, as
/// `verify_history` does.
pub fn verify(
    alloc: Global,
    history: &[u8],
    evidence: &[u8],
    steps: u32,
) -> Result<Output, AllocError>
    ensures { IfOk result (λ o.
        IsVerification history.now evidence.now steps o.status o.text.items) }
{
    let history_read = history_of_text(alloc, history);
    verify_history(alloc, history_read, evidence, steps)
}
