//! Sequential objects: the trait that each kind of object implements, with the laws that every use
//! of an object rests on.
#![tactic(auto)]

mod any_object;
mod counter;
mod function;
mod gate;
mod heap;
mod kinds;
mod lock;
mod map_object;
mod mutex;
mod object;
mod queue;
mod register;
mod set;
mod stack;
mod value;

pub use any_object::AnyObject;
pub use counter::{Counter, CounterOp};
pub use function::{Function, kind_name};
pub use gate::{Gate, Open};
pub use heap::{Heap, HeapOp};
pub use kinds::{Kinds, default_kinds, kinds_named};
pub use lock::{Lock, LockOp};
pub use map_object::{MapObject, MapOp, MapReply};
pub use model::{AnyOp, AnyReply, Kind};
pub use mutex::{Mutex, MutexOp};
pub use object::SeqObject;
pub use queue::{Queue, QueueOp};
pub use register::{Register, RegisterOp, RegisterReply};
pub use set::{Set, SetOp};
pub use stack::{Stack, StackOp};
pub use value::{Value, function_of, op_of, reply_of, value_of_op, value_of_reply};
