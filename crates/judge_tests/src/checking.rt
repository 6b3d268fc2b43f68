//! Tests that the checks of an order, of a certificate and of all certificates give one answer.

use crate::texts_read::history_of;
use certificate::Certificate;
use checker::{OrderFault, Refusal, check_all, check_object, check_order};
use events::split;
use seq_objects::AnyObject;
use std::alloc::Global;
use std::test::Fail;

/// Whether each of the three checks gives this answer on an order of the operations of a history's
/// only object.
fn all_answer(
    alloc: Global,
    text: &str,
    order: &[i64],
    answer: Result<(), Refusal>,
) -> Result<bool, Fail> {
    let history = history_of(alloc, text)?;
    let objects = split(alloc, &history)?;
    let Some(object) = objects.first() else {
        return Err(Fail::new("a history has no object"));
    };
    let mut certificate = Certificate {
        object: object.object(),
        order: Vec::new(alloc),
    };
    certificate.order.extend_from_slice(order)?;
    let of_order = check_order(
        alloc,
        object.object(),
        object.kind(),
        AnyObject::empty(alloc, object.kind()),
        object.ops(),
        order,
    );
    let of_object = check_object(alloc, object, &certificate);
    let of_all = check_all(alloc, &history, &[certificate]);
    Ok(of_order == answer && of_object == answer && of_all == answer)
}

/// One process that enqueues and dequeues.
const IN_TURN: &str = "
    {:process 0 :type :invoke :f :enqueue :value 1}
    {:process 0 :type :ok :f :enqueue :value 1}
    {:process 0 :type :invoke :f :dequeue}
    {:process 0 :type :ok :f :dequeue :value 1}";

/// Orders of it, and the answer.
const ROWS: [(&[i64], Result<(), Refusal>); 2] = [
    (&[0, 2], Ok(())),
    (
        &[0, 0, 2],
        Err(Refusal::BadOrder {
            object: 0,
            fault: OrderFault::Repeated { op: 0 },
        }),
    ),
];

#[test]
fn an_order_is_checked_alone_for_its_object_and_with_all(rt: HostRuntime) -> Result<(), Fail> {
    for (order, answer) in ROWS {
        assert!(rt;
            all_answer(rt.alloc(), IN_TURN, order, answer)?,
            "at {order:?}"
        );
    }
    Ok(())
}
