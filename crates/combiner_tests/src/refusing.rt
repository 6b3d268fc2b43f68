//! An object that may refuse one call.

use seq_objects::{AnyObject, AnyOp, AnyReply, Kind, SeqObject};
use std::alloc::AllocError;

/// An object that refuses the call after `left` others, or none.
#[derive(Drop)]
pub(crate) struct Refusing {
    pub(crate) inside: AnyObject,
    pub(crate) left: Option<u32>,
}

impl SeqObject for Refusing {
    ghost use Rattle.seq_objects.specs.AnyContent.{content_of};

    type Op = AnyOp;

    type Reply = AnyReply;

    ghost content = { λ r. content_of r.inside };

    ghost op_in = { λ op. op };

    ghost reply_in = { λ reply. reply };

    fn kind(&self) -> Kind {
        self.inside.kind()
    }

    fn kind_of(op: &AnyOp) -> Kind {
        AnyObject::kind_of(op)
    }

    fn possible(&self, op: &AnyOp) -> bool {
        self.inside.possible(op)
    }

    fn apply(&mut self, op: &AnyOp) -> Result<AnyReply, AllocError> {
        match self.left {
            Some(0) => {
                self.left = None;
                return Err(AllocError);
            }
            Some(left) => self.left = Some(left - 1),
            None => {}
        }
        self.inside.apply(op)
    }

    fn try_copy(&self) -> Result<Refusing, AllocError> {
        Ok(Refusing {
            inside: self.inside.try_copy()?,
            left: self.left,
        })
    }

    fn same(&self, other: &Refusing) -> bool {
        self.inside.same(&other.inside)
    }

    fn any_op(op: &AnyOp) -> AnyOp {
        *op
    }

    fn any_reply(reply: &AnyReply) -> AnyReply {
        *reply
    }

    ghost ops_apart = { λ a b e. e };

    ghost replies_apart = { λ a b e. e };
}
