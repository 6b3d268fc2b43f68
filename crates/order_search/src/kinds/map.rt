//! Maps.

ghost use Rattle.std.specs.Prelude.{◌≡◌, IfOk};
ghost use Rattle.model.specs.Objects.{table};
ghost use Rattle.seq_objects.specs.Operations.{map_op, map_reply};
ghost use Rattle.order_search.specs.Undoing.{IsStep};
ghost use Rattle.order_search.specs.Kinds.Map.{map_key, value_of_reply};

use crate::digest::{Digest, bits, mixed, of_value};
use crate::kinds::ReversibleKind;
use crate::step::{Step, Undo};
use model::{AnyOp, AnyReply};
use seq_objects::{MapObject, MapOp, MapReply, SeqObject};
use std::alloc::AllocError;

/// How many bytes a key takes with its value, in a tree whose nodes may be half full.
const BYTES_OF_A_KEY: usize = 64;

/// The value of a reply; none if the reply is not a value.
fn value_of(reply: &MapReply) -> Option<i64>
    ensures { result ≡ value_of_reply (map_reply reply.now) }
{
    match *reply {
        MapReply::Value(value) => value,
        MapReply::Changed(_) => None,
    }
}

/// The step of an operation on this key. Its reply need not tell what the key had.
fn step_key(map: &mut MapObject, key: i64, op: &MapOp) -> Result<Step, AllocError>
    requires { map_key op.now ≡ key }
    ensures { IfOk result (IsStep (table map.old) (map_op op.now) (table map.new)) }
{
    let before = value_of(&map.apply(&MapOp::Get(key))?);
    let reply = map.apply(op)?;
    let any_reply = MapObject::any_reply(&reply);
    Ok(Step::new(any_reply, Undo::SetKey(key, before)))
}

/// What the key of the operation has after it.
fn value_after(op: &AnyOp, before: Option<i64>) -> Option<i64> {
    match *op {
        AnyOp::Put(_, v) | AnyOp::Assoc(_, v) => Some(v),
        AnyOp::PutIfAbsent(_, v) => before.or(Some(v)),
        AnyOp::Replace(_, expected, new) if before == Some(expected) => Some(new),
        AnyOp::Del(_) | AnyOp::Dissoc(_) => None,
        _ => before,
    }
}

fn of_entry(key: i64, v: i64) -> u64 {
    mixed(of_value(v, 1), bits(key))
}

pub(crate) struct Maps;

impl ReversibleKind for Maps {
    type State = MapObject;

    ghost content = { table };

    fn is_possible(_map: &MapObject, op: &AnyOp) -> bool {
        match *op {
            AnyOp::Put(_, _) | AnyOp::Get(_) | AnyOp::Del(_) => true,
            AnyOp::PutIfAbsent(_, _) | AnyOp::Replace(_, _, _) => true,
            AnyOp::Assoc(_, _) | AnyOp::Dissoc(_) => true,
            _ => false,
        }
    }

    fn step(map: &mut MapObject, op: &AnyOp) -> Result<Step, AllocError> {
        match *op {
            AnyOp::Put(key, value) => {
                let before = value_of(&map.apply(&MapOp::Put { key, value })?);
                Ok(Step::new(AnyReply::Value(before), Undo::SetKey(key, before)))
            }
            AnyOp::Get(key) => {
                let value = value_of(&map.apply(&MapOp::Get(key))?);
                Ok(Step::new(AnyReply::Value(value), Undo::Nothing))
            }
            AnyOp::Del(key) => {
                let before = value_of(&map.apply(&MapOp::Del(key))?);
                Ok(Step::new(AnyReply::Value(before), Undo::SetKey(key, before)))
            }
            AnyOp::PutIfAbsent(key, value) => {
                step_key(map, key, &MapOp::PutIfAbsent { key, value })
            }
            AnyOp::Replace(key, expected, new) => {
                step_key(map, key, &MapOp::Replace { key, expected, new })
            }
            AnyOp::Assoc(key, value) => step_key(map, key, &MapOp::Assoc { key, value }),
            AnyOp::Dissoc(key) => step_key(map, key, &MapOp::Dissoc(key)),
            _ => unreachable!(),
        }
    }

    fn undo(map: &mut MapObject, undo: Undo) -> Result<(), AllocError> {
        match undo {
            Undo::SetKey(key, Some(value)) => {
                map.apply(&MapOp::Put { key, value })?;
            }
            Undo::SetKey(key, None) => {
                map.apply(&MapOp::Del(key))?;
            }
            _ => {}
        }
        Ok(())
    }

    fn digest(_map: &MapObject, digest: Digest, op: &AnyOp, step: &Step) -> Digest {
        let Undo::SetKey(key, before) = step.undo else {
            return digest;
        };
        let digest = match before {
            Some(v) => digest.without(of_entry(key, v)),
            None => digest,
        };
        match value_after(op, before) {
            Some(v) => digest.with(of_entry(key, v)),
            None => digest,
        }
    }

    fn bytes(_map: &MapObject, keys: usize) -> usize {
        keys.saturating_mul(BYTES_OF_A_KEY)
    }

    fn key_added(op: &AnyOp) -> Option<i64> {
        match *op {
            AnyOp::Put(key, _) | AnyOp::PutIfAbsent(key, _) | AnyOp::Assoc(key, _) => Some(key),
            _ => None,
        }
    }
}
