//! The values of a queue, a stack or a heap.

ghost use Rattle.std.specs.Prelude.{◌≡◌, OnOk};
ghost use Rattle.order_search.specs.Undoing.{values_undone, IsValueTaken};

use crate::step::{Step, Undo};
use model::AnyReply;
use std::alloc::AllocError;
use std::collections::VecDeque;

const BYTES_OF_A_VALUE: usize = 16;

/// Takes the first value, if there is one.
pub(crate) fn take_first(values: &mut VecDeque<i64>) -> Step
    ensures { IsValueTaken values.old.items values.new.items result }
{
    match values.pop_front() {
        Some(v) => Step::new(AnyReply::Value(Some(v)), Undo::PutFirst(v)),
        None => Step::new(AnyReply::Value(None), Undo::Nothing),
    }
}

/// Undoes what was done to the values.
pub(crate) fn undo_values(values: &mut VecDeque<i64>, undo: Undo) -> Result<(), AllocError>
    ensures { OnOk result (values.new.items ≡ values_undone undo values.old.items) }
{
    match undo {
        Undo::TakeFirst => {
            values.pop_front();
        }
        Undo::TakeLast => {
            values.pop_back();
        }
        Undo::TakeAt(place) => {
            values.remove(place);
        }
        Undo::PutFirst(v) => values.push_front(v)?,
        _ => {}
    }
    Ok(())
}

/// How many bytes the values take at most.
pub(crate) fn bytes_of(values: &VecDeque<i64>) -> usize {
    values.len().saturating_mul(BYTES_OF_A_VALUE)
}
