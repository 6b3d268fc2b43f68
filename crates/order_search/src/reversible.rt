//! Objects whose operations can be undone, of all kinds in one type.

ghost use Rattle.std.specs.Prelude.{◌≡◌, ◌↔◌, IsTrue, IsSome, IfOk, OnOk};
ghost use Rattle.model.specs.Objects.{empty, next};
ghost use Rattle.order_search.specs.Undoing.{reversible_content, undone, IsStep};

use crate::digest::Digest;
use crate::kinds::{
    Counters, Heaps, Locks, Maps, Mutexes, Queues, Registers, ReversibleKind, Sets, Stacks,
};
use crate::step::{Step, Undo};
use model::{AnyOp, Kind};
use seq_objects::{MapObject, SeqObject, Set};
use std::alloc::{AllocError, Global};
use std::collections::VecDeque;

/// An object of any kind, whose operations can be undone.
#[derive(Drop)]
pub enum Reversible {
    /// From the first value to go out on.
    Queue(VecDeque<i64>),
    /// From the top on.
    Stack(VecDeque<i64>),
    /// Rising.
    Heap(VecDeque<i64>),
    Register(Option<i64>),
    Map(MapObject),
    Mutex(bool),
    Set(Set),
    Counter(i64),
    /// The owner, if there is one.
    Lock(Option<i64>),
}

impl Reversible {
    /// The object of this kind that contains nothing. It takes no memory.
    pub fn empty(alloc: Global, kind: Kind) -> Reversible
        ensures { reversible_content result ≡ empty kind }
    {
        match kind {
            Kind::Queue => Reversible::Queue(VecDeque::new(alloc)),
            Kind::Stack => Reversible::Stack(VecDeque::new(alloc)),
            Kind::Heap => Reversible::Heap(VecDeque::new(alloc)),
            Kind::Register => Reversible::Register(None),
            Kind::Map => Reversible::Map(MapObject::new(alloc)),
            Kind::Mutex => Reversible::Mutex(false),
            Kind::Set => Reversible::Set(Set::new(alloc)),
            Kind::Counter => Reversible::Counter(0),
            Kind::Lock => Reversible::Lock(None),
        }
    }

    /// Whether the object can do the operation now.
    pub fn is_possible(&self, op: &AnyOp) -> bool
        ensures { IsTrue result ↔ IsSome (next (reversible_content self.now) op.now) }
    {
        match self {
            Reversible::Queue(values) => Queues::is_possible(values, op),
            Reversible::Stack(values) => Stacks::is_possible(values, op),
            Reversible::Heap(values) => Heaps::is_possible(values, op),
            Reversible::Register(value) => Registers::is_possible(value, op),
            Reversible::Map(map) => Maps::is_possible(map, op),
            Reversible::Mutex(held) => Mutexes::is_possible(held, op),
            Reversible::Set(set) => Sets::is_possible(set, op),
            Reversible::Counter(count) => Counters::is_possible(count, op),
            Reversible::Lock(owner) => Locks::is_possible(owner, op),
        }
    }

    /// Does the operation. If an allocation fails, the object may contain anything.
    pub fn apply(&mut self, op: &AnyOp) -> Result<Step, AllocError>
        requires { IsSome (next (reversible_content self.old) op.now) }
        ensures { IfOk result (IsStep (reversible_content self.old) op.now
            (reversible_content self.new)) }
    {
        match self {
            Reversible::Queue(values) => Queues::step(values, op),
            Reversible::Stack(values) => Stacks::step(values, op),
            Reversible::Heap(values) => Heaps::step(values, op),
            Reversible::Register(value) => Registers::step(value, op),
            Reversible::Map(map) => Maps::step(map, op),
            Reversible::Mutex(held) => Mutexes::step(held, op),
            Reversible::Set(set) => Sets::step(set, op),
            Reversible::Counter(count) => Counters::step(count, op),
            Reversible::Lock(owner) => Locks::step(owner, op),
        }
    }

    /// Undoes what an operation did. If an allocation fails, the object may contain anything.
    pub fn undo(&mut self, undo: Undo) -> Result<(), AllocError>
        ensures { OnOk result (reversible_content self.new
            ≡ undone undo (reversible_content self.old)) }
    {
        match self {
            Reversible::Queue(values) => Queues::undo(values, undo),
            Reversible::Stack(values) => Stacks::undo(values, undo),
            Reversible::Heap(values) => Heaps::undo(values, undo),
            Reversible::Register(value) => Registers::undo(value, undo),
            Reversible::Map(map) => Maps::undo(map, undo),
            Reversible::Mutex(held) => Mutexes::undo(held, undo),
            Reversible::Set(set) => Sets::undo(set, undo),
            Reversible::Counter(count) => Counters::undo(count, undo),
            Reversible::Lock(owner) => Locks::undo(owner, undo),
        }
    }

    /// The digest of the search after the object has done this operation. Nothing is promised of
    /// it.
    pub(crate) fn digest(&self, digest: Digest, op: &AnyOp, step: &Step) -> Digest {
        match self {
            Reversible::Queue(values) => Queues::digest(values, digest, op, step),
            Reversible::Stack(values) => Stacks::digest(values, digest, op, step),
            Reversible::Heap(values) => Heaps::digest(values, digest, op, step),
            Reversible::Register(value) => Registers::digest(value, digest, op, step),
            Reversible::Map(map) => Maps::digest(map, digest, op, step),
            Reversible::Mutex(held) => Mutexes::digest(held, digest, op, step),
            Reversible::Set(set) => Sets::digest(set, digest, op, step),
            Reversible::Counter(count) => Counters::digest(count, digest, op, step),
            Reversible::Lock(owner) => Locks::digest(owner, digest, op, step),
        }
    }

    /// How many bytes the content takes at most, if it has at most this many keys.
    pub(crate) fn bytes(&self, keys: usize) -> usize {
        match self {
            Reversible::Queue(values) => Queues::bytes(values, keys),
            Reversible::Stack(values) => Stacks::bytes(values, keys),
            Reversible::Heap(values) => Heaps::bytes(values, keys),
            Reversible::Register(value) => Registers::bytes(value, keys),
            Reversible::Map(map) => Maps::bytes(map, keys),
            Reversible::Mutex(held) => Mutexes::bytes(held, keys),
            Reversible::Set(set) => Sets::bytes(set, keys),
            Reversible::Counter(count) => Counters::bytes(count, keys),
            Reversible::Lock(owner) => Locks::bytes(owner, keys),
        }
    }

    /// The key that the operation may add.
    pub(crate) fn key_added(&self, op: &AnyOp) -> Option<i64> {
        match self {
            Reversible::Queue(_) => Queues::key_added(op),
            Reversible::Stack(_) => Stacks::key_added(op),
            Reversible::Heap(_) => Heaps::key_added(op),
            Reversible::Register(_) => Registers::key_added(op),
            Reversible::Map(_) => Maps::key_added(op),
            Reversible::Mutex(_) => Mutexes::key_added(op),
            Reversible::Set(_) => Sets::key_added(op),
            Reversible::Counter(_) => Counters::key_added(op),
            Reversible::Lock(_) => Locks::key_added(op),
        }
    }

    /// Another object that contains the same.
    pub fn try_copy(&self) -> Result<Reversible, AllocError>
        ensures { IfOk result (λ copy. reversible_content copy ≡ reversible_content self.now) }
    {
        Ok(match self {
            Reversible::Queue(values) => Reversible::Queue(values.clone()?),
            Reversible::Stack(values) => Reversible::Stack(values.clone()?),
            Reversible::Heap(values) => Reversible::Heap(values.clone()?),
            Reversible::Register(value) => Reversible::Register(*value),
            Reversible::Map(map) => Reversible::Map(map.try_copy()?),
            Reversible::Mutex(held) => Reversible::Mutex(*held),
            Reversible::Set(set) => Reversible::Set(set.try_copy()?),
            Reversible::Counter(count) => Reversible::Counter(*count),
            Reversible::Lock(owner) => Reversible::Lock(*owner),
        })
    }

    /// Whether both are of one kind and contain the same.
    pub fn same(&self, other: &Reversible) -> bool
        ensures { IsTrue result ↔ (reversible_content self.now ≡ reversible_content other.now) }
    {
        match (self, other) {
            (Reversible::Queue(a), Reversible::Queue(b)) => a == b,
            (Reversible::Stack(a), Reversible::Stack(b)) => a == b,
            (Reversible::Heap(a), Reversible::Heap(b)) => a == b,
            (Reversible::Register(a), Reversible::Register(b)) => a == b,
            (Reversible::Map(a), Reversible::Map(b)) => a.same(b),
            (Reversible::Mutex(a), Reversible::Mutex(b)) => a == b,
            (Reversible::Set(a), Reversible::Set(b)) => a.same(b),
            (Reversible::Counter(a), Reversible::Counter(b)) => a == b,
            (Reversible::Lock(a), Reversible::Lock(b)) => a == b,
            _ => false,
        }
    }
}
