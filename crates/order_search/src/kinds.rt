//! The kinds of objects, each in a file of its own, and what the search asks of each.

ghost use Rattle.std.specs.Prelude.{◌≡◌, ◌↔◌, IsTrue, IsSome, IfOk, OnOk};
ghost use Rattle.model.specs.Objects.{Content, next};
ghost use Rattle.order_search.specs.Undoing.{undone, IsStep};

mod counter;
mod heap;
mod lock;
mod map;
mod mutex;
mod queue;
mod register;
mod set;
mod stack;
mod values;

use crate::digest::Digest;
use crate::step::{Step, Undo};
pub(crate) use counter::Counters;
pub(crate) use heap::Heaps;
pub(crate) use lock::Locks;
pub(crate) use map::Maps;
use model::AnyOp;
pub(crate) use mutex::Mutexes;
pub(crate) use queue::Queues;
pub(crate) use register::Registers;
pub(crate) use set::Sets;
pub(crate) use stack::Stacks;
use std::alloc::AllocError;

/// A kind of objects whose operations can be undone. An operation of another kind is not possible.
pub(crate) trait ReversibleKind {
    /// The state of an object of this kind.
    type State;

    // What an object with this state contains.
    ghost content: { Self.State → Content };

    /// Whether the object can do the operation now.
    fn is_possible(state: &Self::State, op: &AnyOp) -> bool
        ensures { IsTrue result ↔ IsSome (next (content state.now) op.now) };

    /// Does the operation. If an allocation fails, the object may contain anything.
    fn step(state: &mut Self::State, op: &AnyOp) -> Result<Step, AllocError>
        requires { IsSome (next (content state.old) op.now) }
        ensures { IfOk result (IsStep (content state.old) op.now (content state.new)) };

    /// Undoes what an operation did. If an allocation fails, the object may contain anything.
    fn undo(state: &mut Self::State, undo: Undo) -> Result<(), AllocError>
        ensures { OnOk result (content state.new ≡ undone undo (content state.old)) };

    /// The digest after this step of the operation, which left the state.
    fn digest(state: &Self::State, digest: Digest, op: &AnyOp, step: &Step) -> Digest;

    /// How many bytes the state takes at most, apart from its own size, if it has at most this
    /// many keys.
    fn bytes(_state: &Self::State, _keys: usize) -> usize {
        0
    }

    /// The key that the operation may add.
    fn key_added(_op: &AnyOp) -> Option<i64> {
        None
    }
}
