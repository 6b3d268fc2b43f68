//! The check of reasons, from any source, why a history is not linearizable.

ghost use Rattle.std.specs.Prelude.{◌≡◌, ◌⊎◌, ◌++◌, false, length, map, All, Any, Contains};
ghost use Rattle.std.specs.Prelude.{ℕ, List, IfOk, OnOk};
ghost use Rattle.reading.specs.Texts.{IsHistoryRead};
ghost use Rattle.std.specs.List.{AllZip, list_any};
ghost use Rattle.model.specs.Orders.{calls_on};
ghost use Rattle.events.specs.Events.{IsNamed, denoted};
ghost use Rattle.events.specs.Operations.{calls_of};
ghost use Rattle.refutation.specs.Refutations.{shows_impossible, IsReasonAnswer};
ghost use Rattle.history_commands.specs.Outputs.{IsExactly};
ghost use Rattle.history_commands.specs.Refuted as spec;
ghost use Rattle.history_commands.specs.Refuted.{counts_text, why_not_text, refutation_lines};
ghost use Rattle.history_commands.specs.Refuted.{call_count_on, refutations_text, shown_line};
ghost use Rattle.history_commands.specs.Refuted.{AreAnswered, AreAnsweredIn};
ghost use Rattle.history_commands.specs.Refuted.{IsOfReasonText, IsReasonsFault, IsRefute};

use crate::lines::line_with_place;
use crate::output::{Output, verdict_output};
use crate::status::{Status, status_by};
use edn::{FaultKind, push_natural};
use events::{ObjectHistory, split};
use history::History;
use order_search::call_count;
use reading::{TextFailure, history_of_text};
use reason_report::push_operations;
use refutation::{
    Reason, ReasonAnswer, ReasonFaultKind, ReasonTextFault, WhyNotShown, read_reasons_text,
    refute_all,
};
use report::Verdict;
use std::alloc::{AllocError, Global};

/// The line of a fault of the text of reasons.
fn fault_line(alloc: Global, fault: ReasonTextFault) -> Result<Vec<u8>, AllocError>
    ensures { IfOk result (λ v. v.items ≡ spec.reasons_fault_line fault) }
{
    match fault {
        ReasonTextFault::Text(e) => line_with_place(
            alloc,
            b"malformed reasons: E",
            e.kind.number(),
            b" at byte ",
            e.place,
        ),
        ReasonTextFault::Forms(f) => line_with_place(
            alloc,
            b"malformed reasons: N",
            f.kind.number(),
            b" at form ",
            f.form,
        ),
    }
}

/// Whether an allocation failed.
fn is_allocation_failure(fault: ReasonTextFault) -> bool
    ensures { result ≡ false → IsOfReasonText fault }
{
    match fault {
        ReasonTextFault::Text(e) => matches!(e.kind, FaultKind::NoMemory),
        ReasonTextFault::Forms(f) => matches!(f.kind, ReasonFaultKind::NoMemory),
    }
}

/// The output for a text that denotes no reasons.
fn refuse(alloc: Global, fault: ReasonTextFault) -> Result<Output, AllocError>
    ensures { IfOk result (λ o. IsOfReasonText fault
        × IsExactly Status.Malformed (spec.reasons_fault_line fault) o.status o.text.items) }
{
    if is_allocation_failure(fault) {
        return Err(AllocError);
    }
    Ok(Output {
        status: Status::Malformed,
        text: fault_line(alloc, fault)?,
    })
}

/// How many operations of the object with this number did not fail.
fn call_count_of(objects: &[ObjectHistory], number: u32) -> usize
    ensures { Contains (map (λ o. o.object) objects.now) number → Any (λ o. (o.object ≡ number)
        × (result ≡ length (calls_of o.ops))) objects.now }
{
    for object in objects {
        if object.object() == number {
            return call_count(object.ops());
        }
    }
    0
}

/// Appends `object X`, the beginning of a line on the object of a reason.
fn push_reason_object(text: &mut Vec<u8>, reason: &Reason) -> Result<(), AllocError>
    ensures { OnOk result (text.new.items ≡ text.old.items ++ spec.reason_object_text reason.now) }
{
    text.extend_from_slice(b"object ")?;
    push_natural(text, u64::from(reason.object))
}

/// How many operations the part has, of this many.
fn push_counts(text: &mut Vec<u8>, whole: usize, part: &ObjectHistory) -> Result<(), AllocError>
    ensures { OnOk result (text.new.items ≡ text.old.items ++ counts_text whole part.now) }
{
    push_natural(text, call_count(part.ops()) as u64)?;
    text.extend_from_slice(b" of ")?;
    push_natural(text, whole as u64)
}

/// The line of a part that has no valid order, of an object of this many operations.
fn push_shown(
    text: &mut Vec<u8>,
    whole: usize,
    reason: &Reason,
    part: &ObjectHistory,
) -> Result<(), AllocError>
    ensures { OnOk result (text.new.items ≡ text.old.items
        ++ shown_line whole reason.now part.now) }
{
    text.extend_from_slice(b"not linearizable: ")?;
    push_reason_object(text, reason)?;
    text.extend_from_slice(b": ")?;
    push_counts(text, whole, part)?;
    text.extend_from_slice(b" operations have no valid order\n")
}

/// Why it is not shown that no order is valid.
fn push_why_not(text: &mut Vec<u8>, steps: u64, why_not: &WhyNotShown) -> Result<(), AllocError>
    ensures { OnOk result (text.new.items ≡ text.old.items ++ why_not_text steps why_not.now) }
{
    match why_not {
        WhyNotShown::Possible(_) => text.extend_from_slice(
            b": not shown: the part has a valid order\n",
        ),
        WhyNotShown::NotExceeded => text.extend_from_slice(
            b": not shown: the count is not exceeded\n",
        ),
        WhyNotShown::OutOfSteps => {
            text.extend_from_slice(b": not shown: out of steps after ")?;
            push_natural(text, steps)?;
            text.extend_from_slice(b"\n")
        }
        WhyNotShown::NoMemory => text.extend_from_slice(b": not shown: out of memory\n"),
    }
}

/// The line on a reason that names no part of an object of the history.
fn push_unfit(text: &mut Vec<u8>, reason: &Reason, why: &[u8]) -> Result<(), AllocError>
    ensures { OnOk result (text.new.items ≡ text.old.items
        ++ (spec.reason_object_text reason.now ++ why.now)) }
{
    push_reason_object(text, reason)?;
    text.extend_from_slice(why)
}

/// The lines of the answer to a reason on an object of this many operations.
fn push_answer_on(
    text: &mut Vec<u8>,
    history: &History,
    whole: usize,
    steps: u32,
    reason: &Reason,
    answer: &ReasonAnswer,
) -> Result<(), AllocError>
    ensures { OnOk result (text.new.items ≡ text.old.items
        ++ refutation_lines history.now whole steps reason.now answer.now) }
{
    match answer {
        ReasonAnswer::Impossible(part) => {
            push_shown(text, whole, reason, part)?;
            push_operations(text, false, history, part)
        }
        ReasonAnswer::NotShown { part: _, why_not } => {
            push_reason_object(text, reason)?;
            push_why_not(text, reason.basis.steps(u64::from(steps)), why_not)
        }
        ReasonAnswer::NoPart => push_unfit(text, reason, b": not shown: the cuts name no part\n"),
        ReasonAnswer::OtherObject => {
            push_unfit(text, reason, b": not shown: it is not in the history\n")
        }
    }
}

/// The lines of the answer to a reason on one of the objects of the history.
fn push_answer(
    text: &mut Vec<u8>,
    history: &History,
    objects: &[ObjectHistory],
    steps: u32,
    reason: &Reason,
    answer: &ReasonAnswer,
) -> Result<(), AllocError>
    requires calls { All (λ o. calls_of o.ops ≡ calls_on o.object (denoted history.now))
        objects.now }
    requires named { (x : ℕ) → IsNamed history.now x
        → Contains (map (λ o. o.object) objects.now) x }
    requires answer { IsReasonAnswer history.now reason.now answer.now }
    ensures { OnOk result (text.new.items ≡ text.old.items
        ++ refutation_lines history.now (call_count_on history.now reason.now) steps
        reason.now answer.now) }
{
    let whole = call_count_of(objects, reason.object);
    push_answer_on(text, history, whole, steps, reason, answer)
}

/// The lines of all answers.
fn text_of(
    alloc: Global,
    history: &History,
    steps: u32,
    reasons: &[Reason],
    answers: &[ReasonAnswer],
) -> Result<Vec<u8>, AllocError>
    requires answers { AllZip (IsReasonAnswer history.now) reasons.now answers.now }
    ensures { IfOk result (λ t. t.items
        ≡ refutations_text history.now steps reasons.now answers.now) }
{
    let objects = split(alloc, history)?;
    let mut text = Vec::new(alloc);
    let mut reasons_left = reasons;
    let mut answers_left = answers;
    'reasons: while let [reason, later_reasons @ ..] = reasons_left {
        let [answer, later_answers @ ..] = answers_left else {
            break 'reasons;
        };
        push_answer(&mut text, history, &objects, steps, reason, answer)?;
        reasons_left = later_reasons;
        answers_left = later_answers;
    }
    Ok(text)
}

fn is_impossible(answer: &ReasonAnswer) -> bool
    ensures { result ≡ shows_impossible answer.now }
{
    matches!(answer, ReasonAnswer::Impossible(_))
}

/// Whether some reason shows that the history is not linearizable.
fn is_any_impossible(answers: &[ReasonAnswer]) -> bool
    ensures { result ≡ list_any (λ r. shows_impossible r) answers.now }
{
    answers.iter().any(|answer| is_impossible(answer))
}

/// Checks the reasons on the history, each with a limit of `steps` steps of its search.
fn answer_reasons(
    alloc: Global,
    history: &History,
    reasons: &[Reason],
    steps: u32,
) -> Result<Output, AllocError>
    ensures { IfOk result (λ o.
        AreAnswered history.now reasons.now steps o.status o.text.items) }
{
    let answers = refute_all(alloc, history, reasons, u64::from(steps))?;
    Ok(Output {
        status: status_by(is_any_impossible(&answers), false),
        text: text_of(alloc, history, steps, reasons, &answers)?,
    })
}

/// Checks the reasons that a text denotes on the history, each with a limit of `steps` steps of its
/// search; or returns the output that says why the text denotes none.
fn answer_text(
    alloc: Global,
    history: &History,
    text: &[u8],
    steps: u32,
) -> Result<Output, AllocError>
    ensures { IfOk result (λ o. AreAnsweredIn history.now text.now steps o.status o.text.items
        ⊎ IsReasonsFault text.now o.status o.text.items) }
{
    match read_reasons_text(alloc, text) {
        Ok(reasons) => answer_reasons(alloc, history, &reasons, steps),
        Err(fault) => refuse(alloc, fault),
    }
}

/// Checks the reasons in a text on a history that was read from another text, or says what stopped
/// its reading. Each reason has a limit of `steps` steps of its search.
pub fn refute_history(
    alloc: Global,
    history: Result<History, TextFailure>,
    reasons: &[u8],
    steps: u32,
) -> Result<Output, AllocError>
    ensures { (h : List ℕ) → IsHistoryRead h history → IfOk result (λ o.
        IsRefute h reasons.now steps o.status o.text.items) }
{
    match history {
        Ok(history) => answer_text(alloc, &history, reasons, steps),
        Err(stop) => verdict_output(alloc, &Verdict::from(stop)),
    }
}

/// Checks the reasons in one text on the history in another, as `refute_history` does.
pub fn refute(
    alloc: Global,
    history: &[u8],
    reasons: &[u8],
    steps: u32,
) -> Result<Output, AllocError>
    ensures { IfOk result (λ o. IsRefute history.now reasons.now steps o.status o.text.items) }
{
    let history_read = history_of_text(alloc, history);
    refute_history(alloc, history_read, reasons, steps)
}
