//! Cuts: a part of an object's history, by one cut after another.

ghost use Rattle.std.specs.Prelude.{◌≡◌, List, None, IfOk, IfSome, filter, not};
ghost use Rattle.model.specs.Orders.{Call};
ghost use Rattle.events.specs.Operations.{calls_of};
ghost use Rattle.cuts.specs.Cuts.{IsPart, Names, NamesPart, kind_after_cut, kind_after_cuts};
ghost use Rattle.cuts.specs.CutOperations.{has_failed};

use crate::absent::part_without;
use crate::cells::{cell_part, entry_part};
use crate::keeping::{Values, closed_part};
use crate::prefix::prefix_until;
use crate::suffix::suffix_from;
use events::{End, ObjectHistory, Operation};
use std::alloc::{AllocError, Global};
use std::collections::BTreeSet;

/// How a part is cut out of an object's history.
#[derive(Drop)]
pub enum Cut {
    /// What can take effect from the call with this number on: see [`suffix_from`].
    From(u32),
    /// What was invoked before this number, pending if it had not returned by then: see
    /// [`prefix_until`].
    Until(u32),
    /// All except what was done with this value before this number, if it definitely was not in:
    /// see [`part_without`].
    Without {
        value: i64,
        before: u32,
    },
    /// The operations with these numbers, which keep these values, or keys: see [`closed_part`].
    Keep {
        values: Values,
        numbers: BTreeSet<u32>,
    },
    /// A register's operations that can leave one of these values, and of the others those with
    /// these numbers, with one other value in place of all others: see [`cell_part`].
    Cell {
        values: Values,
        other: i64,
        numbers: BTreeSet<u32>,
    },
    /// A map's operations on one key, as a register: those that can leave one of these values, and
    /// of the others those with these numbers, with one other value in place of no value and of all
    /// others: see [`entry_part`].
    Entry {
        key: i64,
        values: Values,
        other: i64,
        numbers: BTreeSet<u32>,
    },
}

/// The operations that did not fail.
fn calls_among(alloc: Global, operations: &[Operation]) -> Result<Vec<Operation>, AllocError>
    ensures { IfOk result (λ v. v.items ≡ filter (λ o. not (has_failed o.«end»)) operations.now) }
{
    operations
        .iter()
        .filter(|o| o.end != End::Failed)
        .copied()
        .collect(alloc)
}

/// The part of all operations that did not fail.
fn calls_alone(alloc: Global, history: &ObjectHistory) -> Result<ObjectHistory, AllocError>
    ensures part { IfOk result (λ p. IsPart history.now p) }
    ensures kind { IfOk result (λ p. p.kind ≡ history.now.kind) }
    ensures calls { IfOk result (λ p. calls_of p.ops ≡ calls_of history.now.ops) }
{
    let ops = calls_among(alloc, history.ops())?;
    Ok(ObjectHistory::new(history.object(), history.kind(), ops))
}

/// The part that one cut names. `None`: it names none, as a `Keep` that is not closed.
fn cut_by(
    alloc: Global,
    history: &ObjectHistory,
    cut: &Cut,
) -> Result<Option<ObjectHistory>, AllocError>
    ensures part { IfOk result (λ o. IfSome o (λ p. IsPart history.now p)) }
    ensures kind { IfOk result (λ o. IfSome o (λ p.
        p.kind ≡ kind_after_cut cut.now history.now.kind)) }
    ensures named { IfOk result (λ o. IfSome o (λ p.
        Names cut.now (calls_of history.now.ops) (calls_of p.ops))) }
    ensures one { IfOk result (λ o. IfSome o (λ p. (part : List Call)
        → Names cut.now (calls_of history.now.ops) part → part ≡ calls_of p.ops)) }
    ensures refused { IfOk result (λ o. o ≡ None → (part : List Call)
        → Names cut.now (calls_of history.now.ops) part → ⊥) }
{
    // This does nothing. It says that the numbers of the operations rise.
    history.ops();
    match cut {
        Cut::From(number) => suffix_from(alloc, history, *number),
        Cut::Until(number) => Ok(Some(prefix_until(alloc, history, *number)?)),
        Cut::Without { value, before } => part_without(alloc, history, *value, *before),
        Cut::Keep { values, numbers } => closed_part(alloc, history, values, numbers),
        Cut::Cell {
            values,
            other,
            numbers,
        } => Ok(Some(cell_part(alloc, history, values, *other, numbers)?)),
        Cut::Entry {
            key,
            values,
            other,
            numbers,
        } => Ok(Some(entry_part(alloc, history, *key, values, *other, numbers)?)),
    }
}

/// Returns the part that the cuts name, one after another: each cuts the part that those before it
/// named. `None`: one of them names no part: a `Keep` is not closed, a `From` begins at no
/// operation whose reply tells what it left, or the value of a `Without` may have been there. With
/// no cuts the part is the whole, without the operations that failed: no part has one of these.
///
/// An error: an allocation failed.
pub fn part_by(
    alloc: Global,
    history: &ObjectHistory,
    cuts: &[Cut],
) -> Result<Option<ObjectHistory>, AllocError>
    // If no order of the part is valid, none of the whole is. None of its operations failed.
    ensures part { IfOk result (λ o. IfSome o (λ p. IsPart history.now p)) }
    ensures kind { IfOk result (λ o. IfSome o (λ p.
        p.kind ≡ kind_after_cuts cuts.now history.now.kind)) }
    // The calls of the part are those that the cuts name.
    ensures named { IfOk result (λ o. IfSome o (λ p.
        NamesPart cuts.now (calls_of history.now.ops) (calls_of p.ops))) }
    // `None` is given only if the cuts name no part.
    ensures refused { IfOk result (λ o. o ≡ None → (part : List Call)
        → NamesPart cuts.now (calls_of history.now.ops) part → ⊥) }
{
    let mut part = calls_alone(alloc, history)?;
    for cut in cuts {
        match cut_by(alloc, &part, cut)? {
            Some(next) => part = next,
            None => return Ok(None),
        }
    }
    Ok(Some(part))
}
