//! Sets, whose elements are their keys.

use crate::digest::{Digest, of_value};
use crate::kinds::ReversibleKind;
use crate::step::{Step, Undo};
use model::{AnyOp, AnyReply};
use seq_objects::{SeqObject, Set, SetOp};
use std::alloc::AllocError;

/// How many bytes an element takes at most, in a tree whose nodes may be half full.
const BYTES_OF_AN_ELEMENT: usize = 64;

pub(crate) struct Sets;

impl ReversibleKind for Sets {
    ghost use Rattle.model.specs.Objects.{elements};

    type State = Set;

    ghost content = { elements };

    fn is_possible(_set: &Set, op: &AnyOp) -> bool {
        matches!(*op, AnyOp::Add(_) | AnyOp::Remove(_) | AnyOp::Has(_))
    }

    fn step(set: &mut Set, op: &AnyOp) -> Result<Step, AllocError> {
        match *op {
            AnyOp::Add(v) => {
                let is_added = set.apply(&SetOp::Add(v))?;
                let undo = Undo::SetElement(v, !is_added);
                Ok(Step::new(AnyReply::Flag(is_added), undo))
            }
            AnyOp::Remove(v) => {
                let is_removed = set.apply(&SetOp::Remove(v))?;
                let undo = Undo::SetElement(v, is_removed);
                Ok(Step::new(AnyReply::Flag(is_removed), undo))
            }
            AnyOp::Has(v) => {
                let is_in = set.apply(&SetOp::Has(v))?;
                Ok(Step::new(AnyReply::Flag(is_in), Undo::Nothing))
            }
            _ => unreachable!(),
        }
    }

    fn undo(set: &mut Set, undo: Undo) -> Result<(), AllocError> {
        match undo {
            Undo::SetElement(v, true) => {
                set.apply(&SetOp::Add(v))?;
            }
            Undo::SetElement(v, false) => {
                set.apply(&SetOp::Remove(v))?;
            }
            _ => {}
        }
        Ok(())
    }

    fn digest(_set: &Set, digest: Digest, op: &AnyOp, step: &Step) -> Digest {
        match (*op, step.reply) {
            (AnyOp::Add(v), AnyReply::Flag(true)) => digest.with(of_value(v, 0)),
            (AnyOp::Remove(v), AnyReply::Flag(true)) => digest.without(of_value(v, 0)),
            _ => digest,
        }
    }

    fn bytes(_set: &Set, elements: usize) -> usize {
        elements.saturating_mul(BYTES_OF_AN_ELEMENT)
    }

    fn key_added(op: &AnyOp) -> Option<i64> {
        match *op {
            AnyOp::Add(v) => Some(v),
            _ => None,
        }
    }
}
