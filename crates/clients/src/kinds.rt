//! The operations that clients call on objects of each kind.

ghost use Rattle.std.specs.Prelude.{◌≡◌};
ghost use Rattle.clients.specs.Kinds as spec;
ghost use Rattle.clients.specs.Drawing.{AreOf};

use model::{AnyOp, Kind};

/// The operations of which one is drawn for a call.
#[derive(Clone, Copy)]
pub(crate) enum Operations {
    Either(AnyOp, AnyOp),
    AnyOfThree(AnyOp, AnyOp, AnyOp),
    /// The first one takes an object, and the second one frees it. If all objects are of the
    /// kind, a client calls one after the other.
    InTurn(AnyOp, AnyOp),
}

/// The operations of the kind with two values.
pub(crate) fn operations_of(kind: Kind, v: i64, w: i64) -> Operations
    ensures operations { result ≡ spec.operations_with kind v w }
    ensures kind { AreOf kind result }
{
    match kind {
        Kind::Queue => Operations::Either(AnyOp::Enqueue(v), AnyOp::Dequeue),
        Kind::Stack => Operations::Either(AnyOp::Push(v), AnyOp::Pop),
        Kind::Heap => Operations::Either(AnyOp::Insert(v), AnyOp::ExtractMin),
        Kind::Register => Operations::AnyOfThree(AnyOp::Write(v), AnyOp::Read, AnyOp::Cas(v, w)),
        Kind::Map => Operations::AnyOfThree(AnyOp::Put(v, w), AnyOp::Get(v), AnyOp::Del(v)),
        Kind::Mutex => Operations::InTurn(AnyOp::Acquire, AnyOp::Release),
        Kind::Set => Operations::AnyOfThree(AnyOp::Add(v), AnyOp::Remove(v), AnyOp::Has(v)),
        Kind::Counter => Operations::Either(AnyOp::FetchAdd(v), AnyOp::GetCount),
        Kind::Lock => Operations::InTurn(AnyOp::LockBy(v), AnyOp::UnlockBy(v)),
    }
}
