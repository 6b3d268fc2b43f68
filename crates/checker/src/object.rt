//! The check of one object's certificate.

ghost use Rattle.std.specs.Prelude.{◌≡◌, OnOk, IfErr};
ghost use Rattle.model.specs.Orders.{IsValidOrder};
ghost use Rattle.events.specs.Operations.{calls_of};
ghost use Rattle.checker.specs.Faults.{IsFirstFault};
ghost use Rattle.checker.specs.Refusals.{RefusesOrder};

use crate::refusal::{OrderFault, Refusal};
use crate::walk::check_order;
use certificate::Certificate;
use events::ObjectHistory;
use seq_objects::AnyObject;
use std::alloc::Global;

/// Checks the certificate of an object. Returns `Ok` if its order is valid, otherwise the first
/// fault. Either may be an allocation failure instead.
pub fn check_object(
    alloc: Global,
    history: &ObjectHistory,
    certificate: &Certificate,
) -> Result<(), Refusal>
    requires { history.now.object ≡ certificate.now.object }
    ensures valid { OnOk result
        (IsValidOrder history.now.kind (calls_of history.now.ops) certificate.now.order.items) }
    ensures refused { IfErr result
        (RefusesOrder history.now.object history.now.kind
        (calls_of history.now.ops) certificate.now.order.items) }
    ensures faultless { OnOk result ((fault : OrderFault) →
        IsFirstFault history.now.kind (calls_of history.now.ops) certificate.now.order.items fault →
        ⊥) }
    // An order that is refused, except for an allocation failure, is not valid.
    ensures exact { IsValidOrder history.now.kind
        (calls_of history.now.ops) certificate.now.order.items →
        IfErr result (λ e. e ≡ Refusal.NoMemory) }
{
    let object = AnyObject::empty(alloc, history.kind());
    check_order(
        alloc,
        history.object(),
        history.kind(),
        object,
        history.ops(),
        &certificate.order,
    )
}
