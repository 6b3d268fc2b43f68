//! The decisions on the objects of a history by the claims of a text.

use history::read_history_text;
use std::alloc::Global;
use std::test::Fail;
use verifying::{Claim, Decision, decide_by_claims, read_claims_text};

/// A queue that takes out what was put in, one that takes out what never was, a register that is
/// read before and after a write, and one of whose two writes the second must come first, since a
/// cas that expects its value fails.
const HISTORY: &[u8] = b"
    {:process 0 :type :invoke :f :enqueue :value 5 :object 3}
    {:process 0 :type :ok :f :enqueue :value 5 :object 3}
    {:process 0 :type :invoke :f :dequeue :value nil :object 3}
    {:process 0 :type :ok :f :dequeue :value 5 :object 3}
    {:process 0 :type :invoke :f :dequeue :value nil :object 4}
    {:process 0 :type :ok :f :dequeue :value 5 :object 4}
    {:process 0 :type :invoke :f :write :value 1 :object 9}
    {:process 1 :type :invoke :f :read :value nil :object 9}
    {:process 1 :type :ok :f :read :value nil :object 9}
    {:process 0 :type :ok :f :write :value 1 :object 9}
    {:process 1 :type :invoke :f :read :value nil :object 9}
    {:process 1 :type :ok :f :read :value 1 :object 9}
    {:process 0 :type :invoke :f :write :value 1 :object 12}
    {:process 1 :type :invoke :f :write :value 2 :object 12}
    {:process 0 :type :ok :f :write :value 1 :object 12}
    {:process 1 :type :ok :f :write :value 2 :object 12}
    {:process 0 :type :invoke :f :cas :value [2 9] :object 12}
    {:process 0 :type :ok :f :cas :value false :object 12}";

/// The order that is shown, or the operations of the part that has no order, or why it is open.
fn words_of(alloc: Global, decision: &Decision) -> Result<String, Fail> {
    Ok(match decision {
        Decision::Order(certificate) => format!(in alloc; "{:?}", certificate.order)?,
        Decision::Impossible(refuted) => {
            let numbers: Vec<u32> = refuted.part.ops().iter().map(|o| o.number).collect(alloc)?;
            format!(in alloc; "impossible by {numbers:?}")?
        }
        Decision::OutOfSteps(steps) => format!(in alloc; "out of steps after {steps}")?,
        Decision::NoMemory => format!(in alloc; "no memory")?,
        Decision::Open => format!(in alloc; "open")?,
    })
}

/// Compares the decisions by these claims with what they must be. A search for which they name no
/// number of steps takes at most this number.
fn decisions(
    alloc: Global,
    claims: &str,
    limit: u64,
    wanted: [(u32, &str); 4],
) -> Result<(), Fail> {
    let Ok(history) = read_history_text(alloc, HISTORY) else {
        return Err(Fail::new("a history is refused"));
    };
    let Ok(claims) = read_claims_text(alloc, claims.as_bytes()) else {
        return Err(Fail::new("claims are refused"));
    };
    let answers = decide_by_claims(alloc, &history, claims, limit)?;
    if answers.len() != wanted.len() {
        return Err(Fail::new("another number of objects"));
    }
    for ((object, decision), (number, words)) in answers.iter().zip(wanted.iter()) {
        if object != number || words_of(alloc, decision)?.as_str() != *words {
            return Err(Fail::new("another decision"));
        }
    }
    Ok(())
}

/// No event names the objects 5 and 65535.
#[test]
fn an_order_a_reason_and_a_search_are_shown(rt: HostRuntime) -> Result<(), Fail> {
    let claims = "
        {:object 5, :order [0 2]}
        {:object 3, :order [0 2]}
        {:object 4, :cuts [], :count {:value 5, :from 0}, :note \"5 was never put in\"}
        {:object 9, :search {:first :number, :steps 10}}
        {:object 65535, :cuts []}";
    let wanted = [
        (3, "[0, 2]"),
        (4, "impossible by [4]"),
        (9, "[7, 6, 10]"),
        (12, "open"),
    ];
    decisions(rt.alloc(), claims, 0, wanted)
}

#[test]
fn the_search_of_an_object_decides_either_way(rt: HostRuntime) -> Result<(), Fail> {
    let claims = "
        {:object 3, :search {:first :return}} {:object 4, :search {:first :return}}
        {:object 9, :search {:first :return, :steps 1}} {:object 12, :search {}}";
    let wanted = [
        (3, "[0, 2]"),
        (4, "impossible by [4]"),
        (9, "out of steps after 1"),
        (12, "[13, 12, 16]"),
    ];
    decisions(rt.alloc(), claims, 1_000, wanted)
}

/// The orders are not valid, or of another object. The count is not exceeded.
#[test]
fn what_is_not_true_leaves_an_object_open(rt: HostRuntime) -> Result<(), Fail> {
    let claims = "
        {:object 3, :order [2 0]} {:object 3, :cuts [], :count {:value 5, :from 0}}
        {:object 4, :order [4]}
        {:object 9, :order [0 2]}
        {:object 12, :order [13 12 16]} {:object 12, :order [12 13 16]}";
    let wanted = [(3, "open"), (4, "open"), (9, "open"), (12, "[13, 12, 16]")];
    decisions(rt.alloc(), claims, 1_000, wanted)
}

/// The sentence of a claim.
fn note_of(claim: &Claim) -> Option<&[u8]> {
    match claim {
        Claim::Reason {
            reason: _,
            note: Some(note),
        } => Some(note.as_slice()),
        _ => None,
    }
}

/// A reason may have a sentence.
#[test]
fn claims_are_read_in_their_order(rt: HostRuntime) -> Result<(), Fail> {
    let text = b"{:object 9, :cuts [], :note \"a guess\"} {:object 3, :order [0 2]} {:object 3}";
    let Ok(claims) = read_claims_text(rt.alloc(), text) else {
        return Err(Fail::new("claims are refused"));
    };
    let objects: Vec<u32> = claims
        .iter()
        .map(|claim| claim.object())
        .collect(rt.alloc())?;
    assert!(rt; objects.as_slice() == [9, 3, 3].as_slice());
    let notes: Vec<Option<&[u8]>> = claims.iter().map(note_of).collect(rt.alloc())?;
    assert!(rt; notes.as_slice() == [Some(b"a guess".as_slice()), None, None].as_slice());
    Ok(())
}
