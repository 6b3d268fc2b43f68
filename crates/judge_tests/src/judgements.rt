//! Tests that certificates in memory are judged as their text is.

use crate::texts_read::certificates_of;
use checker::{OrderFault, Refusal, check_all};
use reading::{history_of_text, one_history, one_list_of_orders};
use report::Verdict;
use seq_objects::AnyReply;
use std::alloc::Global;
use std::test::Fail;
use std::thread::Threads;
use text_check::judge;

const HISTORY: &[u8] = b"{:process 0, :type :invoke, :f :enqueue, :value 1}
{:process 0, :type :ok, :f :enqueue, :value 1}
{:process 0, :type :invoke, :f :dequeue, :value nil}
{:process 0, :type :ok, :f :dequeue, :value 1}";

const DEQUEUE_FIRST: Refusal = Refusal::BadOrder {
    object: 0,
    fault: OrderFault::WrongReply {
        op: 2,
        gives: AnyReply::Value(None),
    },
};

/// What is wrong with the certificates of a text, for the history above. The verdict on both texts
/// says the same.
fn refusal<R: Threads + Sync>(
    rt: &R,
    alloc: Global,
    certificates: &str,
    workers: u32,
) -> Result<Option<Refusal>, Fail> {
    let Ok(history) = history_of_text(alloc, HISTORY) else {
        return Err(Fail::new("no history"));
    };
    let orders = certificates_of(alloc, certificates)?;
    let refusal = check_all(alloc, &history, &orders).err();
    let of_texts = match judge(rt, alloc, HISTORY, certificates.as_bytes(), workers) {
        Verdict::Yes(_) => None,
        Verdict::No(refusal) => Some(refusal),
        _ => return Err(Fail::new("texts that are read one by one are not judged")),
    };
    if of_texts != refusal {
        return Err(Fail::new("texts are judged otherwise than what they denote"));
    }
    Ok(refusal)
}

#[test]
fn certificates_are_judged_as_their_text_is(rt: HostRuntime) -> Result<(), Fail> {
    one_history();
    one_list_of_orders();
    // no worker counts as one, and more than 16 as 16
    for workers in [0, 1, 16, 17] {
        assert!(rt; refusal(&rt, rt.alloc(), "{:object 0, :order [0 2]}", workers)? == None);
        assert!(rt;
            refusal(&rt, rt.alloc(), "{:object 0, :order [2 0]}", workers)? == Some(DEQUEUE_FIRST)
        );
    }
    Ok(())
}
