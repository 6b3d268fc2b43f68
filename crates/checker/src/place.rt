//! The place of the operation with a number.

ghost use Rattle.std.specs.Prelude.{◌≡◌, ◌<◌, length, Some, None, pos, AllPairs, IfSome, IfNone};
ghost use Rattle.std.specs.List.{HoldsAt};
ghost use Rattle.model.specs.Orders.{Call};
ghost use Rattle.events.specs.Operations.{call_of, calls_of};
ghost use Rattle.checker.specs.Faults.{call_with_number};

use events::{End, Operation};

/// How many operations beside the last one are looked at before all are searched.
const NEARBY: usize = 24;

/// The place of the operation with this number, if it did not fail and is near this place.
fn nearby_place(ops: &[Operation], entry: i64, near: usize) -> Option<usize>
    requires { AllPairs (λ a b. a.number < b.number) ops.now }
    ensures { IfSome result (λ k. (k < length ops.now)
        × ((c : Call) × (call_with_number (calls_of ops.now) entry ≡ Some c)
        × HoldsAt (λ o. call_of o ≡ Some c) ops.now k)) }
{
    let mut k = near;
    for _ in 0..NEARBY {
        if k >= ops.len() {
            return None;
        }
        let number = ops[k].number as i64;
        if number == entry {
            match ops[k].end {
                End::Failed => return None,
                _ => return Some(k),
            }
        }
        if number < entry {
            k += 1;
        } else if k > 0 {
            k -= 1;
        } else {
            return None;
        }
    }
    None
}

/// The place of the operation with this number, if there is one that did not fail. It is looked for
/// near this place first.
pub(crate) fn place_of(ops: &[Operation], entry: i64, near: usize) -> Option<usize>
    requires { AllPairs (λ a b. a.number < b.number) ops.now }
    ensures some { IfSome result (λ k. (k < length ops.now)
        × ((c : Call) × (call_with_number (calls_of ops.now) entry ≡ Some c)
        × HoldsAt (λ o. call_of o ≡ Some c) ops.now k)) }
    ensures none { IfNone result (call_with_number (calls_of ops.now) entry ≡ None) }
{
    match nearby_place(ops, entry, near) {
        Some(k) => Some(k),
        None => place_among(ops, entry),
    }
}

/// The place of the operation with this number, if there is one that did not fail, by a search
/// among all.
fn place_among(ops: &[Operation], entry: i64) -> Option<usize>
    requires { AllPairs (λ a b. a.number < b.number) ops.now }
    ensures some { IfSome result (λ k. (k < length ops.now)
        × ((c : Call) × (call_with_number (calls_of ops.now) entry ≡ Some c)
        × HoldsAt (λ o. call_of o ≡ Some c) ops.now k)) }
    ensures none { IfNone result (call_with_number (calls_of ops.now) entry ≡ None) }
{
    let Ok(k) = ops.binary_search_by_key(&entry, |o| i64::from(o.number)) else {
        return None;
    };
    match ops[k].end {
        End::Failed => None,
        _ => Some(k),
    }
}
