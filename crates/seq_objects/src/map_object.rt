//! Maps.

ghost use Rattle.std.specs.Prelude.{◌≡◌};
ghost use Rattle.model.specs.Objects.{empty, kind_of};

use crate::object::SeqObject;
use model::{AnyOp, AnyReply, Kind};
use std::alloc::{AllocError, Global};
use std::collections::BTreeMap;
use std::marker::Model;

/// An operation of a map.
#[derive(Clone, Copy, Debug, PartialEq, Eq)]
pub enum MapOp {
    Put { key: i64, value: i64 },
    Get(i64),
    Del(i64),
    /// Puts the value if the key has none.
    PutIfAbsent { key: i64, value: i64 },
    /// Puts the new value if the key has the expected one.
    Replace { key: i64, expected: i64, new: i64 },
    /// Puts the value, and does not tell the earlier one.
    Assoc { key: i64, value: i64 },
    /// Removes the key, and does not tell its value.
    Dissoc(i64),
}

/// The reply of a map.
#[derive(Clone, Copy, Debug, PartialEq, Eq)]
pub enum MapReply {
    /// The value that the key had before; none if it had none, or the operation tells none.
    Value(Option<i64>),
    /// Whether the value was put.
    Changed(bool),
}

impl MapOp {
    ghost use Rattle.seq_objects.specs.Operations.{map_op};

    /// The operation of all kinds as one of a map.
    pub(crate) fn from_any(op: &AnyOp) -> MapOp
        requires { kind_of op.now ≡ Kind.Map }
        ensures { map_op result ≡ op.now }
    {
        match *op {
            AnyOp::Put(key, value) => MapOp::Put { key, value },
            AnyOp::Get(key) => MapOp::Get(key),
            AnyOp::Del(key) => MapOp::Del(key),
            AnyOp::PutIfAbsent(key, value) => MapOp::PutIfAbsent { key, value },
            AnyOp::Replace(key, expected, new) => MapOp::Replace { key, expected, new },
            AnyOp::Assoc(key, value) => MapOp::Assoc { key, value },
            AnyOp::Dissoc(key) => MapOp::Dissoc(key),
            _ => unreachable!(),
        }
    }
}

/// A map from integers to integers. Each operation takes logarithmic time.
#[derive(Debug, Drop)]
pub struct MapObject {
    values: BTreeMap<i64, i64>,
}

impl Model for MapObject {
    ghost use Rattle.std.specs.Prelude.{ℤ};
    ghost use Rattle.std.specs.Coded.{coded_ℤ};
    ghost use Rattle.std.specs.FinMap.{FinMap, code, from_sorted};
    ghost use Rattle.std.specs.Ordering.{int_cmp};
    ghost use Rattle.std.specs.BTreeMap.{IsOrdered};

    ghost Value = { FinMap int_cmp ℤ };

    ghost coded = { code coded_ℤ coded_ℤ };

    ghost view = { λ m. from_sorted m.values.entries };

    ghost invariant = { λ m. IsOrdered int_cmp m.values };
}

impl MapObject {
    /// A map with no key. It takes no memory.
    pub fn new(alloc: Global) -> MapObject
        ensures { ⟦<MapObject as SeqObject>⟧.content result ≡ empty Kind.Map }
    {
        MapObject {
            values: BTreeMap::new(alloc),
        }
    }
}

impl SeqObject for MapObject {
    ghost use Rattle.model.specs.Objects.{table};
    ghost use Rattle.seq_objects.specs.Operations.{map_op, map_reply};

    type Op = MapOp;

    type Reply = MapReply;

    ghost content = { table };

    ghost op_in = { map_op };

    ghost reply_in = { map_reply };

    fn kind(&self) -> Kind {
        Kind::Map
    }

    fn kind_of(_op: &MapOp) -> Kind {
        Kind::Map
    }

    fn possible(&self, _op: &MapOp) -> bool {
        true
    }

    fn apply(&mut self, op: &MapOp) -> Result<MapReply, AllocError> {
        match op {
            MapOp::Put { key, value } => Ok(MapReply::Value(self.values.insert(*key, *value)?)),
            MapOp::Get(key) => Ok(MapReply::Value(self.values.get(key).copied())),
            MapOp::Del(key) => Ok(MapReply::Value(self.values.remove(key))),
            MapOp::PutIfAbsent { key, value } => {
                let is_absent = !self.values.contains_key(key);
                if is_absent {
                    self.values.insert(*key, *value)?;
                }
                Ok(MapReply::Changed(is_absent))
            }
            MapOp::Replace { key, expected, new } => {
                let is_expected = self.values.get(key).copied() == Some(*expected);
                if is_expected {
                    self.values.insert(*key, *new)?;
                }
                Ok(MapReply::Changed(is_expected))
            }
            MapOp::Assoc { key, value } => {
                self.values.insert(*key, *value)?;
                Ok(MapReply::Value(None))
            }
            MapOp::Dissoc(key) => {
                self.values.remove(key);
                Ok(MapReply::Value(None))
            }
        }
    }

    fn try_copy(&self) -> Result<MapObject, AllocError> {
        Ok(MapObject {
            values: self.values.clone()?,
        })
    }

    fn same(&self, other: &MapObject) -> bool {
        self.values == other.values
    }

    fn any_op(op: &MapOp) -> AnyOp {
        match *op {
            MapOp::Put { key, value } => AnyOp::Put(key, value),
            MapOp::Get(key) => AnyOp::Get(key),
            MapOp::Del(key) => AnyOp::Del(key),
            MapOp::PutIfAbsent { key, value } => AnyOp::PutIfAbsent(key, value),
            MapOp::Replace { key, expected, new } => AnyOp::Replace(key, expected, new),
            MapOp::Assoc { key, value } => AnyOp::Assoc(key, value),
            MapOp::Dissoc(key) => AnyOp::Dissoc(key),
        }
    }

    fn any_reply(reply: &MapReply) -> AnyReply {
        match *reply {
            MapReply::Value(value) => AnyReply::Value(value),
            MapReply::Changed(so) => AnyReply::Flag(so),
        }
    }

    ghost use Rattle.std.proofs.Common.{rules};

    ghost ops_apart = { Prim.search rules };

    ghost replies_apart = { Prim.search rules };
}
