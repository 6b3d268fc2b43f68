//! The walk along an order.

ghost use Rattle.std.specs.Prelude.{◌≡◌, ℕ, ◌<◌, length, true, false, Some, List, Bool, OnOk};
ghost use Rattle.std.specs.Prelude.{IfErr, IfSome, IfNone, All, AllPairs, MatchOption, max};
ghost use Rattle.std.specs.Prelude.{slice_index_or};
ghost use Rattle.std.specs.Option.{option_map_or};
ghost use Rattle.std.specs.List.{HoldsAt};
ghost use Rattle.model.specs.declared.AnyOp.{AnyOp};
ghost use Rattle.model.specs.declared.AnyReply.{AnyReply};
ghost use Rattle.model.specs.Objects.{empty, kind_of};
ghost use Rattle.model.specs.Orders.{IsValidOrder};
ghost use Rattle.events.specs.declared.operations.Operation.{Operation};
ghost use Rattle.events.specs.Operations.{calls_of};
ghost use Rattle.checker.specs.Ends.{IsLate, IsEarly, AreMarked, IsFirstUnmarked};
ghost use Rattle.checker.specs.Faults.{IsFirstFault};
ghost use Rattle.checker.specs.Refusals.{RefusesOrder};

use crate::place::place_of;
use crate::refusal::{OrderFault, Refusal};
use events::{End, Operation};
use seq_objects::{AnyOp, AnyReply, Kind, SeqObject};
use std::alloc::Global;

/// The greatest invocation so far, if the operation returned before it: then the operation comes
/// too late.
fn late_by(end: &End, greatest: Option<u32>) -> Option<u32>
    ensures { MatchOption result (IsEarly end.now greatest)
        (λ by. (greatest ≡ Some by) × IsLate end.now by) }
{
    match (end, greatest) {
        (End::Returned { at, .. }, Some(by)) if *at < by => Some(by),
        _ => None,
    }
}

/// The greater of `greatest` and `number`.
fn greatest_with(greatest: Option<u32>, number: u32) -> u32
    ensures { result ≡ option_map_or (λ by. max by number) greatest number }
{
    match greatest {
        Some(by) => by.max(number),
        None => number,
    }
}

/// The number of the first operation that returned and is not marked.
fn first_omitted(ops: &[Operation], seen: &[bool]) -> Option<u32>
    requires { length seen.now ≡ length ops.now }
    ensures none { IfNone result (AreMarked ops.now seen.now (length ops.now)) }
    ensures some { IfSome result (λ n. IsFirstUnmarked ops.now seen.now n) }
{
    for (k, o) in ops.iter().enumerate() {
        if o.end.has_returned() && !seen[k] {
            return Some(o.number);
        }
    }
    None
}

fn refuse(object: u32, fault: OrderFault) -> Result<(), Refusal>
    ensures { result ≡ Err (Refusal.BadOrder object fault) }
{
    Err(Refusal::BadOrder { object, fault })
}

/// Checks the entries of an order one by one, from an empty object, and what the order leaves out.
// A function of its own, so that what follows from these clauses is proved once, and not at each
// return.
fn check_entries<S: SeqObject<Op = AnyOp, Reply = AnyReply>>(
    alloc: Global,
    number: u32,
    kind: Kind,
    mut object: S,
    ops: &[Operation],
    order: &[i64],
) -> Result<(), Refusal>
    requires empty { S.content object ≡ empty kind }
    requires own_ops { (op : AnyOp) → S.op_in op ≡ op }
    requires own_replies { (r : AnyReply) → S.reply_in r ≡ r }
    requires rising { AllPairs (λ a b. a.number < b.number) ops.now }
    requires of_kind { All (λ o. kind_of o.op ≡ kind) ops.now }
    ensures valid { OnOk result (IsValidOrder kind (calls_of ops.now) order.now) }
    ensures refused { IfErr result (RefusesOrder number kind (calls_of ops.now) order.now) }
{
    let Ok(mut seen) = vec![in alloc; false; ops.len()] else {
        return Err(Refusal::NoMemory);
    };
    let mut greatest: Option<u32> = None;
    // Most entries are near the one before.
    let mut near = 0;
    for entry in order {
        let op = *entry;
        let Some(k) = place_of(ops, op, near) else {
            return refuse(number, OrderFault::UnknownOperation { op });
        };
        if seen[k] {
            return refuse(number, OrderFault::Repeated { op });
        }
        let call = ops[k];
        if let Some(by) = late_by(&call.end, greatest) {
            return refuse(number, OrderFault::TooLate { op, by });
        }
        if !object.possible(&call.op) {
            return refuse(number, OrderFault::NotPossible { op });
        }
        let Ok(gives) = object.apply(&call.op) else {
            return Err(Refusal::NoMemory);
        };
        if call.end.differs(gives) {
            return refuse(number, OrderFault::WrongReply { op, gives });
        }
        seen[k] = true;
        near = k;
        greatest = Some(greatest_with(greatest, call.number));
    }
    match first_omitted(ops, &seen) {
        Some(op) => refuse(number, OrderFault::Omitted { op }),
        None => Ok(()),
    }
}

/// Checks an order of the operations of the object with this number, from an object of its kind
/// that is empty. Returns `Ok` if the order is valid, otherwise the first fault. Either may be an
/// allocation failure instead.
pub fn check_order<S: SeqObject<Op = AnyOp, Reply = AnyReply>>(
    alloc: Global,
    number: u32,
    kind: Kind,
    object: S,
    ops: &[Operation],
    order: &[i64],
) -> Result<(), Refusal>
    requires empty { S.content object ≡ empty kind }
    requires own_ops { (op : AnyOp) → S.op_in op ≡ op }
    requires own_replies { (r : AnyReply) → S.reply_in r ≡ r }
    requires rising { AllPairs (λ a b. a.number < b.number) ops.now }
    requires of_kind { All (λ o. kind_of o.op ≡ kind) ops.now }
    ensures valid { OnOk result (IsValidOrder kind (calls_of ops.now) order.now) }
    ensures refused { IfErr result (RefusesOrder number kind (calls_of ops.now) order.now) }
    ensures faultless { OnOk result ((fault : OrderFault) →
        IsFirstFault kind (calls_of ops.now) order.now fault → ⊥) }
    // An order that is refused, except for an allocation failure, is not valid.
    ensures exact { IsValidOrder kind (calls_of ops.now) order.now →
        IfErr result (λ e. e ≡ Refusal.NoMemory) }
{
    check_entries(alloc, number, kind, object, ops, order)
}
