//! The values in which histories write arguments and replies.

ghost use Rattle.std.specs.Prelude.{◌≡◌, Some, IfSome};
ghost use Rattle.model.specs.Objects.{kind_of};
ghost use Rattle.seq_objects.specs.declared.function.Function.{Function};
ghost use Rattle.seq_objects.specs.declared.value.Value.{Value};
ghost use Rattle.seq_objects.specs.Functions.{kind_of_function};
ghost use Rattle.seq_objects.specs.Values.{op_with, reply_with, function_in, op_value, reply_value};

use crate::function::Function;
use model::{AnyOp, AnyReply};

/// An argument or a reply, as a history writes it.
#[derive(Clone, Copy, Debug, PartialEq, Eq)]
pub enum Value {
    Nil,
    False,
    True,
    Int(i64),
    Pair(i64, i64),
    Triple(i64, i64, i64),
}

/// The operation of this name with this argument; none if the argument has not the shape that
/// the name asks for.
pub fn op_of(f: Function, value: Value) -> Option<AnyOp>
    ensures op { result ≡ op_with f value }
    ensures function { IfSome result (λ op. function_in op ≡ f) }
    ensures argument { IfSome result (λ op. op_value op ≡ value) }
    ensures kind { IfSome result (λ op. kind_of op ≡ kind_of_function f) }
{
    match (f, value) {
        (Function::Enqueue, Value::Int(v)) => Some(AnyOp::Enqueue(v)),
        (Function::Dequeue, Value::Nil) => Some(AnyOp::Dequeue),
        (Function::Push, Value::Int(v)) => Some(AnyOp::Push(v)),
        (Function::Pop, Value::Nil) => Some(AnyOp::Pop),
        (Function::Insert, Value::Int(v)) => Some(AnyOp::Insert(v)),
        (Function::ExtractMin, Value::Nil) => Some(AnyOp::ExtractMin),
        (Function::Write, Value::Int(v)) => Some(AnyOp::Write(v)),
        (Function::Read, Value::Nil) => Some(AnyOp::Read),
        (Function::Cas, Value::Pair(expected, new)) => Some(AnyOp::Cas(expected, new)),
        (Function::Put, Value::Pair(key, value)) => Some(AnyOp::Put(key, value)),
        (Function::Get, Value::Int(key)) => Some(AnyOp::Get(key)),
        (Function::Del, Value::Int(key)) => Some(AnyOp::Del(key)),
        (Function::Acquire, Value::Nil) => Some(AnyOp::Acquire),
        (Function::Release, Value::Nil) => Some(AnyOp::Release),
        (Function::Clear, Value::Nil) => Some(AnyOp::Clear),
        (Function::Create, Value::Int(v)) => Some(AnyOp::Create(v)),
        (Function::PutIfAbsent, Value::Pair(key, value)) => Some(AnyOp::PutIfAbsent(key, value)),
        (Function::Replace, Value::Triple(key, expected, new)) => Some(AnyOp::Replace(
            key, expected, new,
        )),
        (Function::Assoc, Value::Pair(key, value)) => Some(AnyOp::Assoc(key, value)),
        (Function::Dissoc, Value::Int(key)) => Some(AnyOp::Dissoc(key)),
        (Function::Add, Value::Int(v)) => Some(AnyOp::Add(v)),
        (Function::Remove, Value::Int(v)) => Some(AnyOp::Remove(v)),
        (Function::Has, Value::Int(v)) => Some(AnyOp::Has(v)),
        (Function::FetchAdd, Value::Int(n)) => Some(AnyOp::FetchAdd(n)),
        (Function::GetCount, Value::Nil) => Some(AnyOp::GetCount),
        (Function::LockBy, Value::Int(owner)) => Some(AnyOp::LockBy(owner)),
        (Function::UnlockBy, Value::Int(owner)) => Some(AnyOp::UnlockBy(owner)),
        _ => None,
    }
}

/// The name of the operation.
pub fn function_of(op: &AnyOp) -> Function
    ensures function { result ≡ function_in op.now }
    ensures kind { kind_of_function result ≡ kind_of op.now }
{
    match op {
        AnyOp::Enqueue(_) => Function::Enqueue,
        AnyOp::Dequeue => Function::Dequeue,
        AnyOp::Push(_) => Function::Push,
        AnyOp::Pop => Function::Pop,
        AnyOp::Insert(_) => Function::Insert,
        AnyOp::ExtractMin => Function::ExtractMin,
        AnyOp::Write(_) => Function::Write,
        AnyOp::Read => Function::Read,
        AnyOp::Cas(..) => Function::Cas,
        AnyOp::Put(..) => Function::Put,
        AnyOp::Get(_) => Function::Get,
        AnyOp::Del(_) => Function::Del,
        AnyOp::Acquire => Function::Acquire,
        AnyOp::Release => Function::Release,
        AnyOp::Clear => Function::Clear,
        AnyOp::Create(_) => Function::Create,
        AnyOp::PutIfAbsent(..) => Function::PutIfAbsent,
        AnyOp::Replace(..) => Function::Replace,
        AnyOp::Assoc(..) => Function::Assoc,
        AnyOp::Dissoc(_) => Function::Dissoc,
        AnyOp::Add(_) => Function::Add,
        AnyOp::Remove(_) => Function::Remove,
        AnyOp::Has(_) => Function::Has,
        AnyOp::FetchAdd(_) => Function::FetchAdd,
        AnyOp::GetCount => Function::GetCount,
        AnyOp::LockBy(_) => Function::LockBy,
        AnyOp::UnlockBy(_) => Function::UnlockBy,
    }
}

/// The argument of the operation. With the operation's own name it is read back as the operation.
pub fn value_of_op(op: &AnyOp) -> Value
    ensures value { result ≡ op_value op.now }
    ensures read_back { op_with (function_in op.now) result ≡ Some op.now }
{
    match *op {
        AnyOp::Enqueue(v) | AnyOp::Push(v) | AnyOp::Insert(v) => Value::Int(v),
        AnyOp::Write(v) | AnyOp::Create(v) => Value::Int(v),
        AnyOp::Add(v) | AnyOp::Remove(v) | AnyOp::Has(v) => Value::Int(v),
        AnyOp::Get(key) | AnyOp::Del(key) | AnyOp::Dissoc(key) => Value::Int(key),
        AnyOp::FetchAdd(n) => Value::Int(n),
        AnyOp::LockBy(owner) | AnyOp::UnlockBy(owner) => Value::Int(owner),
        AnyOp::Cas(expected, new) => Value::Pair(expected, new),
        AnyOp::Put(key, value) => Value::Pair(key, value),
        AnyOp::PutIfAbsent(key, value) => Value::Pair(key, value),
        AnyOp::Assoc(key, value) => Value::Pair(key, value),
        AnyOp::Replace(key, expected, new) => Value::Triple(key, expected, new),
        AnyOp::Dequeue
        | AnyOp::Pop
        | AnyOp::ExtractMin
        | AnyOp::Read
        | AnyOp::Acquire
        | AnyOp::Release
        | AnyOp::Clear
        | AnyOp::GetCount => Value::Nil,
    }
}

/// The reply to an operation of this name that the value stands for; none if the value has not
/// the shape of a reply to it.
pub fn reply_of(f: Function, value: Value) -> Option<AnyReply>
    ensures reply { result ≡ reply_with f value }
    ensures value { IfSome result (λ reply. reply_value reply ≡ value) }
{
    match f {
        Function::Enqueue
        | Function::Push
        | Function::Insert
        | Function::Write
        | Function::FetchAdd
        | Function::GetCount => match value {
            Value::Int(v) => Some(AnyReply::Value(Some(v))),
            _ => None,
        },
        Function::Dequeue
        | Function::Pop
        | Function::ExtractMin
        | Function::Read
        | Function::Put
        | Function::Get
        | Function::Del => match value {
            Value::Int(v) => Some(AnyReply::Value(Some(v))),
            Value::Nil => Some(AnyReply::Value(None)),
            _ => None,
        },
        Function::Cas => match value {
            Value::Pair(expected, new) => Some(AnyReply::Swapped(expected, new)),
            Value::False => Some(AnyReply::NotSwapped),
            _ => None,
        },
        Function::Acquire
        | Function::Release
        | Function::Clear
        | Function::Assoc
        | Function::Dissoc
        | Function::LockBy
        | Function::UnlockBy => match value {
            Value::Nil => Some(AnyReply::Value(None)),
            _ => None,
        },
        Function::Create
        | Function::PutIfAbsent
        | Function::Replace
        | Function::Add
        | Function::Remove
        | Function::Has => match value {
            Value::True => Some(AnyReply::Flag(true)),
            Value::False => Some(AnyReply::Flag(false)),
            _ => None,
        },
    }
}

/// The value that stands for the reply. With each name with which some value is read as the reply,
/// this one is.
pub fn value_of_reply(reply: &AnyReply) -> Value
    ensures value { result ≡ reply_value reply.now }
    ensures read_back { (f : Function) (v : Value) → reply_with f v ≡ Some reply.now →
        reply_with f result ≡ Some reply.now }
{
    match *reply {
        AnyReply::Value(None) => Value::Nil,
        AnyReply::Value(Some(v)) => Value::Int(v),
        AnyReply::Swapped(expected, new) => Value::Pair(expected, new),
        AnyReply::NotSwapped | AnyReply::Flag(false) => Value::False,
        AnyReply::Flag(true) => Value::True,
    }
}
