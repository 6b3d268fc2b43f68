//! The trait of sequential objects.

ghost use Rattle.std.specs.Prelude.{◌≡◌, ◌↔◌, IsTrue, IsSome, Some, IfOk, OnErr};
ghost use Rattle.model.specs.declared.AnyOp.{AnyOp};
ghost use Rattle.model.specs.declared.AnyReply.{AnyReply};
ghost use Rattle.model.specs.Objects.{Content, kind_with, next};
ghost use Rattle.model.specs.Objects as model;

use model::{AnyOp, AnyReply, Kind};
use std::alloc::AllocError;

/// A sequential object: one caller uses it at a time. It may have its own types of operations and
/// replies, which stand for some of those of all kinds.
pub trait SeqObject: Drop + Send {
    type Op: Copy + Eq + Drop + Send;

    type Reply: Copy + Eq + Drop + Send;

    // What the object contains, and which operation and which reply a value stands for.
    ghost content: { Self → Content };

    ghost op_in: { Self.Op → AnyOp };

    ghost reply_in: { Self.Reply → AnyReply };

    fn kind(&self) -> Kind
        ensures { result ≡ kind_with (content self.now) };

    /// The kind that has the operation.
    fn kind_of(op: &Self::Op) -> Kind
        ensures { result ≡ model.kind_of (op_in op.now) };

    /// Whether the object can do the operation now. It is asked for operations of the object's own
    /// kind.
    fn possible(&self, op: &Self::Op) -> bool
        requires { model.kind_of (op_in op.now) ≡ kind_with (content self.now) }
        ensures { IsTrue result ↔ IsSome (next (content self.now) (op_in op.now)) };

    /// Applies the operation and returns its reply. If an allocation fails, nothing changes.
    fn apply(&mut self, op: &Self::Op) -> Result<Self::Reply, AllocError>
        requires { IsSome (next (content self.old) (op_in op.now)) }
        ensures ok { IfOk result (λ r.
            next (content self.old) (op_in op.now) ≡ Some (content self.new, reply_in r)) }
        ensures kind { kind_with (content self.new) ≡ kind_with (content self.old) }
        ensures err { OnErr result (content self.new ≡ content self.old) };

    /// Another object of the same kind that contains the same.
    fn try_copy(&self) -> Result<Self, AllocError>
        ensures { IfOk result (λ copy. content copy ≡ content self.now) };

    /// Whether the two objects are of one kind and contain the same.
    fn same(&self, other: &Self) -> bool
        ensures { IsTrue result ↔ (content self.now ≡ content other.now) };

    /// The operation among those of all kinds.
    fn any_op(op: &Self::Op) -> AnyOp
        ensures { result ≡ op_in op.now };

    /// The reply among those of all kinds.
    fn any_reply(reply: &Self::Reply) -> AnyReply
        ensures { result ≡ reply_in reply.now };

    // Different operations stand for different ones, and so do replies.
    ghost ops_apart: { (a b : Self.Op) → op_in a ≡ op_in b → a ≡ b };

    ghost replies_apart: { (a b : Self.Reply) → reply_in a ≡ reply_in b → a ≡ b };
}
