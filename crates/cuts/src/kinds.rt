//! What parts need to know of the kinds. No code outside of these files names a kind or an
//! operation. Each kind that has cells has a file of its own, and this file lists them.

ghost use Rattle.std.specs.Prelude.{◌≡◌};
ghost use Rattle.cuts.specs.Kinds as spec;

pub(crate) mod containers;
pub(crate) mod counting;
pub(crate) mod keeping;
pub(crate) mod map;
pub(crate) mod register;
pub(crate) mod starts;

use crate::touches::Touch;
use map::map_touch;
use register::register_touch;
use seq_objects::{AnyOp, AnyReply, Kind};

/// A cell of an object: a register is one, and a map has one for each key.
#[derive(Clone, Copy)]
pub(crate) enum CellId {
    OfRegister,
    OfKey(i64),
}

impl CellId {
    /// Whether a part keeps "no value" of this cell.
    pub(crate) fn keeps_none(self) -> bool
        ensures { result ≡ spec.keeps_none self }
    {
        matches!(self, CellId::OfRegister)
    }

    /// The kind of a part of an object of this kind.
    pub(crate) fn kind_at_cell(self, kind: Kind) -> Kind
        ensures { result ≡ spec.kind_at_cell self kind }
    {
        match self {
            CellId::OfRegister => kind,
            CellId::OfKey(_) => Kind::Register,
        }
    }

    /// The call itself, if it is a call of a register.
    pub(crate) fn own_call(self, op: AnyOp, reply: AnyReply) -> Option<(AnyOp, AnyReply)>
        ensures { result ≡ spec.own_call self op reply }
    {
        match self {
            CellId::OfRegister => Some((op, reply)),
            CellId::OfKey(_) => None,
        }
    }

    /// What an operation with this reply does to the cell. No reply: what it does if it takes
    /// effect. `None`: nothing that is known.
    pub(crate) fn touch(self, op: AnyOp, reply: Option<AnyReply>) -> Option<Touch>
        ensures { result ≡ spec.touch_at self op reply }
    {
        match self {
            CellId::OfRegister => register_touch(op, reply),
            CellId::OfKey(key) => map_touch(key, op, reply),
        }
    }
}
