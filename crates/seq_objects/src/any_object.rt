//! Objects of all kinds in one type.

ghost use Rattle.std.specs.Prelude.{◌≡◌};
ghost use Rattle.model.specs.Objects.{empty};

use crate::counter::{Counter, CounterOp};
use crate::heap::{Heap, HeapOp};
use crate::lock::{Lock, LockOp};
use crate::map_object::{MapObject, MapOp};
use crate::mutex::{Mutex, MutexOp};
use crate::object::SeqObject;
use crate::queue::{Queue, QueueOp};
use crate::register::{Register, RegisterOp};
use crate::set::{Set, SetOp};
use crate::stack::{Stack, StackOp};
use crate::value::function_of;
use model::{AnyOp, AnyReply, Kind};
use std::alloc::{AllocError, Global};

/// An object of any kind, with the operations and replies of all kinds.
#[derive(Drop)]
pub enum AnyObject {
    Queue(Queue),
    Stack(Stack),
    Heap(Heap),
    Register(Register),
    Map(MapObject),
    Mutex(Mutex),
    Set(Set),
    Counter(Counter),
    Lock(Lock),
}

impl AnyObject {
    /// The object of this kind that contains nothing. It takes no memory.
    pub fn empty(alloc: Global, kind: Kind) -> AnyObject
        ensures { ⟦<AnyObject as SeqObject>⟧.content result ≡ empty kind }
    {
        match kind {
            Kind::Queue => AnyObject::Queue(Queue::new(alloc)),
            Kind::Stack => AnyObject::Stack(Stack::new(alloc)),
            Kind::Heap => AnyObject::Heap(Heap::new(alloc)),
            Kind::Register => AnyObject::Register(Register::new(alloc)),
            Kind::Map => AnyObject::Map(MapObject::new(alloc)),
            Kind::Mutex => AnyObject::Mutex(Mutex::new(alloc)),
            Kind::Set => AnyObject::Set(Set::new(alloc)),
            Kind::Counter => AnyObject::Counter(Counter::new(alloc)),
            Kind::Lock => AnyObject::Lock(Lock::new(alloc)),
        }
    }
}

impl SeqObject for AnyObject {
    ghost use Rattle.seq_objects.specs.AnyContent.{content_of};

    type Op = AnyOp;

    type Reply = AnyReply;

    ghost content = { content_of };

    ghost op_in = { λ op. op };

    ghost reply_in = { λ reply. reply };

    fn kind(&self) -> Kind {
        match self {
            AnyObject::Queue(_) => Kind::Queue,
            AnyObject::Stack(_) => Kind::Stack,
            AnyObject::Heap(_) => Kind::Heap,
            AnyObject::Register(_) => Kind::Register,
            AnyObject::Map(_) => Kind::Map,
            AnyObject::Mutex(_) => Kind::Mutex,
            AnyObject::Set(_) => Kind::Set,
            AnyObject::Counter(_) => Kind::Counter,
            AnyObject::Lock(_) => Kind::Lock,
        }
    }

    fn kind_of(op: &AnyOp) -> Kind {
        function_of(op).kind()
    }

    fn possible(&self, op: &AnyOp) -> bool {
        match self {
            AnyObject::Queue(queue) => queue.possible(&QueueOp::from_any(op)),
            AnyObject::Stack(stack) => stack.possible(&StackOp::from_any(op)),
            AnyObject::Heap(heap) => heap.possible(&HeapOp::from_any(op)),
            AnyObject::Register(register) => register.possible(&RegisterOp::from_any(op)),
            AnyObject::Map(map) => map.possible(&MapOp::from_any(op)),
            AnyObject::Mutex(mutex) => mutex.possible(&MutexOp::from_any(op)),
            AnyObject::Set(set) => set.possible(&SetOp::from_any(op)),
            AnyObject::Counter(counter) => counter.possible(&CounterOp::from_any(op)),
            AnyObject::Lock(lock) => lock.possible(&LockOp::from_any(op)),
        }
    }

    fn apply(&mut self, op: &AnyOp) -> Result<AnyReply, AllocError> {
        match self {
            AnyObject::Queue(queue) => {
                let reply = queue.apply(&QueueOp::from_any(op))?;
                Ok(Queue::any_reply(&reply))
            }
            AnyObject::Stack(stack) => {
                let reply = stack.apply(&StackOp::from_any(op))?;
                Ok(Stack::any_reply(&reply))
            }
            AnyObject::Heap(heap) => {
                let reply = heap.apply(&HeapOp::from_any(op))?;
                Ok(Heap::any_reply(&reply))
            }
            AnyObject::Register(register) => {
                let reply = register.apply(&RegisterOp::from_any(op))?;
                Ok(Register::any_reply(&reply))
            }
            AnyObject::Map(map) => {
                let reply = map.apply(&MapOp::from_any(op))?;
                Ok(MapObject::any_reply(&reply))
            }
            AnyObject::Mutex(mutex) => {
                let reply = mutex.apply(&MutexOp::from_any(op))?;
                Ok(Mutex::any_reply(&reply))
            }
            AnyObject::Set(set) => {
                let reply = set.apply(&SetOp::from_any(op))?;
                Ok(Set::any_reply(&reply))
            }
            AnyObject::Counter(counter) => {
                let reply = counter.apply(&CounterOp::from_any(op))?;
                Ok(Counter::any_reply(&reply))
            }
            AnyObject::Lock(lock) => {
                let reply = lock.apply(&LockOp::from_any(op))?;
                Ok(Lock::any_reply(&reply))
            }
        }
    }

    fn try_copy(&self) -> Result<AnyObject, AllocError> {
        Ok(match self {
            AnyObject::Queue(queue) => AnyObject::Queue(queue.try_copy()?),
            AnyObject::Stack(stack) => AnyObject::Stack(stack.try_copy()?),
            AnyObject::Heap(heap) => AnyObject::Heap(heap.try_copy()?),
            AnyObject::Register(register) => AnyObject::Register(register.try_copy()?),
            AnyObject::Map(map) => AnyObject::Map(map.try_copy()?),
            AnyObject::Mutex(mutex) => AnyObject::Mutex(mutex.try_copy()?),
            AnyObject::Set(set) => AnyObject::Set(set.try_copy()?),
            AnyObject::Counter(counter) => AnyObject::Counter(counter.try_copy()?),
            AnyObject::Lock(lock) => AnyObject::Lock(lock.try_copy()?),
        })
    }

    fn same(&self, other: &AnyObject) -> bool {
        match (self, other) {
            (AnyObject::Queue(own), AnyObject::Queue(other)) => own.same(other),
            (AnyObject::Stack(own), AnyObject::Stack(other)) => own.same(other),
            (AnyObject::Heap(own), AnyObject::Heap(other)) => own.same(other),
            (AnyObject::Register(own), AnyObject::Register(other)) => own.same(other),
            (AnyObject::Map(own), AnyObject::Map(other)) => own.same(other),
            (AnyObject::Mutex(own), AnyObject::Mutex(other)) => own.same(other),
            (AnyObject::Set(own), AnyObject::Set(other)) => own.same(other),
            (AnyObject::Counter(own), AnyObject::Counter(other)) => own.same(other),
            (AnyObject::Lock(own), AnyObject::Lock(other)) => own.same(other),
            _ => false,
        }
    }

    fn any_op(op: &AnyOp) -> AnyOp {
        *op
    }

    fn any_reply(reply: &AnyReply) -> AnyReply {
        *reply
    }

    ghost ops_apart = { λ a b e. e };

    ghost replies_apart = { λ a b e. e };
}
