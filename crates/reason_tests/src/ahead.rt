//! Which removals definitely found something too early, by the count of what was ahead.

use history::read_history_text;
use refutation::{ReasonAnswer, WhyNotShown, read_reasons_text, refute_all};
use std::alloc::Global;
use std::test::Fail;

/// Whether the count of each of these reasons is exceeded.
fn exceeded(alloc: Global, history: &[u8], reasons: &str) -> Result<Vec<bool>, Fail> {
    let Ok(history) = read_history_text(alloc, history) else {
        return Err(Fail::new("a history is refused"));
    };
    let Ok(reasons) = read_reasons_text(alloc, reasons.as_bytes()) else {
        return Err(Fail::new("a reason is refused"));
    };
    let mut answers = Vec::new(alloc);
    for answer in &refute_all(alloc, &history, &reasons, 0)? {
        match answer {
            ReasonAnswer::Impossible(_) => answers.push(true)?,
            ReasonAnswer::NotShown {
                part: _,
                why_not: WhyNotShown::NotExceeded,
            } => answers.push(false)?,
            _ => return Err(Fail::new("another answer")),
        }
    }
    Ok(answers)
}

/// Two values were in the queue, and one pending dequeue can have taken one of them. From map 1 on
/// only one was put in. Event 4 is a pending removal, event 0 is an enqueue, and there is no event
/// 9.
#[test]
fn a_queue_was_not_empty(rt: HostRuntime) -> Result<(), Fail> {
    let history = b"
        {:process 0 :type :invoke :f :enqueue :value 1}
        {:process 0 :type :ok :f :enqueue :value 1}
        {:process 0 :type :invoke :f :enqueue :value 2}
        {:process 0 :type :ok :f :enqueue :value 2}
        {:process 1 :type :invoke :f :dequeue}
        {:process 0 :type :invoke :f :dequeue}
        {:process 0 :type :ok :f :dequeue :value nil}";
    let reasons = "
        {:object 0, :count {:ahead 5}}
        {:object 0, :count {:ahead 5, :from 1}}
        {:object 0, :cuts [{:until 6}], :count {:ahead 5}}
        {:object 0, :count {:ahead 4}}
        {:object 0, :count {:ahead 0}}
        {:object 0, :count {:ahead 9}}";
    let answers = exceeded(rt.alloc(), history, reasons)?;
    assert!(rt; answers.as_slice() == [true, false, false, false, false, false].as_slice());
    Ok(())
}

/// The dequeue at 3 overlaps the one that found nothing, and can have come before it.
#[test]
fn an_overlapping_dequeue_may_have_emptied_the_queue(rt: HostRuntime) -> Result<(), Fail> {
    let history = b"
        {:process 0 :type :invoke :f :enqueue :value 1}
        {:process 0 :type :ok :f :enqueue :value 1}
        {:process 0 :type :invoke :f :dequeue}
        {:process 1 :type :invoke :f :dequeue}
        {:process 1 :type :ok :f :dequeue :value 1}
        {:process 0 :type :ok :f :dequeue :value nil}";
    let answers = exceeded(rt.alloc(), history, "{:object 0, :count {:ahead 2}}")?;
    assert!(rt; answers.as_slice() == [false].as_slice());
    Ok(())
}

#[test]
fn a_value_was_ahead_in_a_queue(rt: HostRuntime) -> Result<(), Fail> {
    let history = b"
        {:process 0 :type :invoke :f :enqueue :value 1}
        {:process 0 :type :ok :f :enqueue :value 1}
        {:process 0 :type :invoke :f :enqueue :value 2}
        {:process 0 :type :ok :f :enqueue :value 2}
        {:process 0 :type :invoke :f :dequeue}
        {:process 0 :type :ok :f :dequeue :value 2}";
    let overlapping = b"
        {:process 0 :type :invoke :f :enqueue :value 1}
        {:process 1 :type :invoke :f :enqueue :value 2}
        {:process 0 :type :ok :f :enqueue :value 1}
        {:process 1 :type :ok :f :enqueue :value 2}
        {:process 0 :type :invoke :f :dequeue}
        {:process 0 :type :ok :f :dequeue :value 2}";
    let reason = "{:object 0, :count {:ahead 4}}";
    assert!(rt; exceeded(rt.alloc(), history, reason)?.as_slice() == [true].as_slice());
    assert!(rt; exceeded(rt.alloc(), overlapping, reason)?.as_slice() == [false].as_slice());
    Ok(())
}

/// The count must begin after each push of 1 had returned, and before the push of 2.
#[test]
fn a_value_was_on_top_of_a_stack(rt: HostRuntime) -> Result<(), Fail> {
    let history = b"
        {:process 0 :type :invoke :f :push :value 1}
        {:process 0 :type :ok :f :push :value 1}
        {:process 0 :type :invoke :f :push :value 2}
        {:process 0 :type :ok :f :push :value 2}
        {:process 0 :type :invoke :f :pop}
        {:process 0 :type :ok :f :pop :value 1}";
    let reasons = "
        {:object 0, :count {:ahead 4, :from 2}}
        {:object 0, :count {:ahead 4, :from 1}}
        {:object 0, :count {:ahead 4, :from 3}}
        {:object 0, :count {:ahead 4}}";
    let answers = exceeded(rt.alloc(), history, reasons)?;
    assert!(rt; answers.as_slice() == [true, false, false, false].as_slice());
    Ok(())
}

/// Nothing less than 1 was in the heap when the second extraction found it.
#[test]
fn a_lesser_value_was_in_a_heap(rt: HostRuntime) -> Result<(), Fail> {
    let history = b"
        {:process 0 :type :invoke :f :insert :value 1}
        {:process 0 :type :ok :f :insert :value 1}
        {:process 0 :type :invoke :f :insert :value 2}
        {:process 0 :type :ok :f :insert :value 2}
        {:process 0 :type :invoke :f :extract-min}
        {:process 0 :type :ok :f :extract-min :value 2}
        {:process 0 :type :invoke :f :extract-min}
        {:process 0 :type :ok :f :extract-min :value 1}";
    let reasons = "{:object 0, :count {:ahead 4}} {:object 0, :count {:ahead 6}}";
    let answers = exceeded(rt.alloc(), history, reasons)?;
    assert!(rt; answers.as_slice() == [true, false].as_slice());
    Ok(())
}
