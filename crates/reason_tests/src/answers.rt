//! The answers for reasons that do not hold.

use cuts::{Count, Counted, Cut};
use history::read_history_text;
use order_search::TryFirst;
use refutation::{Basis, Reason, ReasonAnswer, Trial, WhyNotShown, refute_all};
use std::alloc::{AllocError, Global};
use std::test::Fail;

/// The acquire at map 6 has a valid order with that at map 4 only while it is pending.
const TWO_HOLD: &[u8] = b"
    {:process 0 :type :invoke :f :acquire}
    {:process 0 :type :ok :f :acquire}
    {:process 0 :type :invoke :f :release}
    {:process 0 :type :ok :f :release}
    {:process 1 :type :invoke :f :acquire}
    {:process 1 :type :ok :f :acquire}
    {:process 0 :type :invoke :f :acquire}
    {:process 0 :type :ok :f :acquire}";

/// A reason by the window between two numbers; from 0 there is no suffix.
fn reason(alloc: Global, from: u32, end: u32, basis: Basis) -> Result<Reason, AllocError> {
    let mut cuts = Vec::new(alloc);
    if from > 0 {
        cuts.push(Cut::From(from))?;
    }
    cuts.push(Cut::Until(end))?;
    Ok(Reason {
        object: 0,
        cuts,
        basis,
    })
}

/// Why a part is not shown impossible, for a part of this many operations.
fn why_not_shown(answer: &ReasonAnswer, size: usize) -> Option<&WhyNotShown> {
    match answer {
        ReasonAnswer::NotShown { part, why_not } if part.ops().len() == size => Some(why_not),
        _ => None,
    }
}

/// The search of a part, with a limit of its own or without one.
fn search_in(steps: Option<u32>) -> Basis {
    Basis::Search(Trial {
        first: TryFirst::LeastNumber,
        steps,
    })
}

/// The commands tell why, and not the part.
#[test]
fn a_part_is_handed_out_with_why_not(rt: HostRuntime) -> Result<(), Fail> {
    let free = Basis::Counting(Count {
        counted: Counted::Free,
        from: 4,
    });
    let Ok(history) = read_history_text(rt.alloc(), TWO_HOLD) else {
        return Err(Fail::new("a history is refused"));
    };
    let mut reasons = Vec::new(rt.alloc());
    reasons.push(reason(rt.alloc(), 4, 7, search_in(None))?)?;
    reasons.push(reason(rt.alloc(), 0, 7, free)?)?;
    let answers = refute_all(rt.alloc(), &history, &reasons, 100)?;
    assert!(rt; answers.len() == 2);
    let Some(WhyNotShown::Possible(order)) = why_not_shown(&answers[0], 2) else {
        return Err(Fail::new("no order of the part is told"));
    };
    assert!(rt; order.as_slice() == [4].as_slice());
    assert!(rt;
        matches!(
            why_not_shown(&answers[1], 4),
            Some(WhyNotShown::NotExceeded)
        )
    );
    Ok(())
}

/// A number of steps that the reason gives is the limit, whatever the caller allows.
#[test]
fn a_search_takes_as_many_steps_as_its_reason_allows(rt: HostRuntime) -> Result<(), Fail> {
    let Ok(history) = read_history_text(rt.alloc(), TWO_HOLD) else {
        return Err(Fail::new("a history is refused"));
    };
    let mut reasons = Vec::new(rt.alloc());
    reasons.push(reason(rt.alloc(), 4, 8, search_in(None))?)?;
    reasons.push(reason(rt.alloc(), 4, 8, search_in(Some(0)))?)?;
    reasons.push(reason(rt.alloc(), 4, 8, search_in(Some(100)))?)?;
    let answers = refute_all(rt.alloc(), &history, &reasons, 0)?;
    assert!(rt; answers.len() == 3);
    assert!(rt; matches!(why_not_shown(&answers[0], 2), Some(WhyNotShown::OutOfSteps)));
    assert!(rt; matches!(why_not_shown(&answers[1], 2), Some(WhyNotShown::OutOfSteps)));
    assert!(rt; matches!(answers[2], ReasonAnswer::Impossible(_)));
    let answers = refute_all(rt.alloc(), &history, &reasons, 100)?;
    assert!(rt; answers.len() == 3);
    assert!(rt; matches!(answers[0], ReasonAnswer::Impossible(_)));
    assert!(rt; matches!(why_not_shown(&answers[1], 2), Some(WhyNotShown::OutOfSteps)));
    Ok(())
}
