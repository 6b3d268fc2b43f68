//! The answers of a command on the objects of a history: how the command ends, and its lines.

ghost use Rattle.std.specs.Prelude.{◌≡◌, ◌++◌, ℕ, List, Bool, IfOk, OnOk};
ghost use Rattle.std.specs.List.{list_all, list_any};
ghost use Rattle.events.specs.declared.event.Event.{Event};
ghost use Rattle.history_commands.specs.Outputs.{IsExactly, lines_on, status_on};

use crate::output::Output;
use crate::status::status_by;
use history::History;
use std::alloc::{AllocError, Global};

/// The answer of a command for an object of a history.
pub(crate) trait Answer {
    /// Whether no order is valid.
    ghost impossible: { Self → Bool };
    /// Whether there is an order.
    ghost found: { Self → Bool };
    /// The lines on the object with a number.
    ghost lines: { List Event → ℕ → Self → List ℕ };

    fn is_impossible(&self) -> bool
        ensures { result ≡ impossible self.now };

    fn is_found(&self) -> bool
        ensures { result ≡ found self.now };

    /// Appends the lines on the object with this number.
    fn push_lines(
        &self,
        alloc: Global,
        text: &mut Vec<u8>,
        history: &History,
        object: u32,
    ) -> Result<(), AllocError>
        ensures { OnOk result (text.new.items
            ≡ text.old.items ++ lines history.now object self.now) };
}

/// Whether some object is impossible.
pub(crate) fn is_any_impossible<A: Answer>(answers: &[(u32, A)]) -> bool
    ensures { result ≡ list_any (λ a. A.impossible a.1) answers.now }
{
    answers.iter().any(|answer| answer.1.is_impossible())
}

/// Whether each object has an order.
pub(crate) fn are_all_found<A: Answer>(answers: &[(u32, A)]) -> bool
    ensures { result ≡ list_all (λ a. A.found a.1) answers.now }
{
    answers.iter().all(|answer| answer.1.is_found())
}

/// The lines on all objects.
fn text_of<A: Answer>(
    alloc: Global,
    history: &History,
    answers: &[(u32, A)],
) -> Result<Vec<u8>, AllocError>
    ensures { IfOk result (λ text. text.items ≡ lines_on (A.lines history.now) answers.now) }
{
    let mut text = Vec::new(alloc);
    let mut rest = answers;
    'answers: while let [(object, answer), later @ ..] = rest {
        answer.push_lines(alloc, &mut text, history, *object)?;
        rest = later;
    }
    Ok(text)
}

/// The lines on all objects, and how the command ends: `No` if one of them is impossible, `Yes` if
/// each has an order, and otherwise `Undecided`.
pub(crate) fn output_of<A: Answer>(
    alloc: Global,
    history: &History,
    answers: &[(u32, A)],
) -> Result<Output, AllocError>
    ensures { IfOk result (λ o. IsExactly (status_on A.impossible A.found answers.now)
        (lines_on (A.lines history.now) answers.now) o.status o.text.items) }
{
    let text = text_of(alloc, history, answers)?;
    Ok(Output {
        status: status_by(is_any_impossible(answers), are_all_found(answers)),
        text,
    })
}
