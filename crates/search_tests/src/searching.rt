//! Tests `search`, `search_all` and `search_by` on texts whose answers and steps are known. By
//! default a search tries the operation with the least number first.

use events::{History, ObjectHistory, split};
use history::read_history_text;
use order_search::TryFirst;
use search::{CertificateOutcome, Search, search, search_all, search_by};
use std::alloc::Global;
use std::test::Fail;

const IN_TURN: &[u8] = b"
    {:process 0 :type :invoke :f :enqueue :value 1}
    {:process 0 :type :ok :f :enqueue :value 1}
    {:process 0 :type :invoke :f :dequeue}
    {:process 0 :type :ok :f :dequeue :value 1}";

/// Two values are enqueued at the same time, and the second goes out.
const AT_ONCE: &[u8] = b"
    {:process 0 :type :invoke :f :enqueue :value 1}
    {:process 1 :type :invoke :f :enqueue :value 2}
    {:process 0 :type :ok :f :enqueue :value 1}
    {:process 1 :type :ok :f :enqueue :value 2}
    {:process 0 :type :invoke :f :dequeue}
    {:process 0 :type :ok :f :dequeue :value 2}";

/// Two values are enqueued one after the other, and the second goes out.
const ONE_BY_ONE: &[u8] = b"
    {:process 0 :type :invoke :f :enqueue :value 1}
    {:process 0 :type :ok :f :enqueue :value 1}
    {:process 1 :type :invoke :f :enqueue :value 2}
    {:process 1 :type :ok :f :enqueue :value 2}
    {:process 0 :type :invoke :f :dequeue}
    {:process 0 :type :ok :f :dequeue :value 2}";

/// One value is enqueued twice at the same time, and another one goes out.
const TWICE_THE_SAME: &[u8] = b"
    {:process 0 :type :invoke :f :enqueue :value 1}
    {:process 1 :type :invoke :f :enqueue :value 1}
    {:process 0 :type :ok :f :enqueue :value 1}
    {:process 1 :type :ok :f :enqueue :value 1}
    {:process 0 :type :invoke :f :dequeue}
    {:process 0 :type :ok :f :dequeue :value 2}";

const TWO_OBJECTS: &[u8] = b"
    {:process 0 :type :invoke :f :dequeue :object 0}
    {:process 1 :type :invoke :f :dequeue :object 1}
    {:process 2 :type :invoke :f :enqueue :value 7 :object 0}
    {:process 3 :type :invoke :f :enqueue :value 8 :object 1}
    {:process 0 :type :ok :f :dequeue :value 7 :object 0}
    {:process 1 :type :ok :f :dequeue :value 8 :object 1}
    {:process 2 :type :ok :f :enqueue :value 7 :object 0}
    {:process 3 :type :ok :f :enqueue :value 8 :object 1}";

/// What is dequeued was enqueued by an operation that is pending.
const PENDING: &[u8] = b"
    {:process 0 :type :invoke :f :enqueue :value 9}
    {:process 1 :type :invoke :f :dequeue}
    {:process 1 :type :ok :f :dequeue :value 9}";

const FAILED: &[u8] = b"
    {:process 0 :type :invoke :f :enqueue :value 5}
    {:process 0 :type :fail :f :enqueue :value 5}";

/// A mutex is acquired while it is held, and released meanwhile.
const HELD: &[u8] = b"
    {:process 0 :type :invoke :f :acquire} {:process 0 :type :ok :f :acquire}
    {:process 1 :type :invoke :f :acquire}
    {:process 0 :type :invoke :f :release} {:process 0 :type :ok :f :release}
    {:process 1 :type :ok :f :acquire}";

const FREE: &[u8] = b"
    {:process 0 :type :invoke :f :release} {:process 0 :type :ok :f :release}";

const HEAP: &[u8] = b"
    {:process 0 :type :invoke :f :insert :value 5} {:process 0 :type :ok :f :insert :value 5}
    {:process 0 :type :invoke :f :insert :value 5} {:process 0 :type :ok :f :insert :value 5}
    {:process 0 :type :invoke :f :insert :value -3} {:process 0 :type :ok :f :insert :value -3}
    {:process 0 :type :invoke :f :extract-min} {:process 0 :type :ok :f :extract-min :value -3}
    {:process 0 :type :invoke :f :extract-min} {:process 0 :type :ok :f :extract-min :value 5}
    {:process 0 :type :invoke :f :extract-min} {:process 0 :type :ok :f :extract-min :value 5}
    {:process 0 :type :invoke :f :extract-min} {:process 0 :type :ok :f :extract-min}";

const REGISTER: &[u8] = b"
    {:process 0 :type :invoke :f :cas :value [1 2]} {:process 0 :type :ok :f :cas :value false}
    {:process 0 :type :invoke :f :write :value 1} {:process 0 :type :ok :f :write :value 1}
    {:process 0 :type :invoke :f :cas :value [1 2]} {:process 0 :type :ok :f :cas :value [1 2]}
    {:process 0 :type :invoke :f :read} {:process 0 :type :ok :f :read :value 2}";

const MAP: &[u8] = b"
    {:process 0 :type :invoke :f :put :value [1 10]} {:process 0 :type :ok :f :put}
    {:process 0 :type :invoke :f :put :value [1 11]} {:process 0 :type :ok :f :put :value 10}
    {:process 0 :type :invoke :f :get :value 1} {:process 0 :type :ok :f :get :value 11}
    {:process 0 :type :invoke :f :del :value 1} {:process 0 :type :ok :f :del :value 11}
    {:process 0 :type :invoke :f :get :value 1} {:process 0 :type :ok :f :get}";

const AMPLE: u64 = 1_000_000;

/// What the search must find.
#[derive(Clone, Copy)]
enum Wanted {
    Order(&'static [i64]),
    Impossible,
    OutOfSteps,
}

use Wanted::{Impossible, Order, OutOfSteps};

/// A text, the most steps for each object, and of each object its number, what is to be found, and
/// in how many steps.
const ROWS: [(&[u8], u64, &[(u32, Wanted, u64)]); 21] = [
    (b"", AMPLE, &[]),
    (IN_TURN, AMPLE, &[(0, Order(&[0, 2]), 2)]),
    (AT_ONCE, AMPLE, &[(0, Order(&[1, 0, 4]), 6)]),
    (AT_ONCE, 6, &[(0, Order(&[1, 0, 4]), 6)]),
    (AT_ONCE, 5, &[(0, OutOfSteps, 5)]),
    (AT_ONCE, 0, &[(0, OutOfSteps, 0)]),
    (ONE_BY_ONE, AMPLE, &[(0, Impossible, 3)]),
    (ONE_BY_ONE, 3, &[(0, Impossible, 3)]),
    (ONE_BY_ONE, 1, &[(0, OutOfSteps, 1)]),
    (TWICE_THE_SAME, AMPLE, &[(0, Impossible, 5)]),
    (TWICE_THE_SAME, 4, &[(0, OutOfSteps, 4)]),
    (
        TWO_OBJECTS,
        AMPLE,
        &[(0, Order(&[2, 0]), 3), (1, Order(&[3, 1]), 3)],
    ),
    (PENDING, AMPLE, &[(0, Order(&[0, 1]), 2)]),
    (FAILED, 0, &[(0, Order(&[]), 0)]),
    (HELD, AMPLE, &[(0, Order(&[0, 3, 2]), 3)]),
    (HELD, 2, &[(0, OutOfSteps, 2)]),
    (FREE, AMPLE, &[(0, Impossible, 0)]),
    (FREE, 0, &[(0, Impossible, 0)]),
    (HEAP, AMPLE, &[(0, Order(&[0, 2, 4, 6, 8, 10, 12]), 7)]),
    (REGISTER, AMPLE, &[(0, Order(&[0, 2, 4, 6]), 4)]),
    (MAP, AMPLE, &[(0, Order(&[0, 2, 4, 6, 8]), 5)]),
];

fn is_wanted(answer: &Search, wanted: Wanted, steps: u64) -> bool {
    let is_found = match (&answer.found, wanted) {
        (CertificateOutcome::Found(certificate), Order(order)) => certificate.order.as_slice()
            == order,
        (CertificateOutcome::Impossible, Impossible) => true,
        (CertificateOutcome::OutOfSteps, OutOfSteps) => true,
        _ => false,
    };
    is_found && answer.steps == steps
}

/// Whether `search_all` gives these answers, and `search` the same for each object.
fn are_wanted(
    alloc: Global,
    all: &[(u32, Search)],
    objects: &[ObjectHistory],
    limit: u64,
    wanted: &[(u32, Wanted, u64)],
) -> bool {
    if all.len() != wanted.len() || objects.len() != wanted.len() {
        return false;
    }
    for (k, (number, found, steps)) in wanted.iter().enumerate() {
        let (object, of_all) = &all[k];
        let alone = search(alloc, &objects[k], limit);
        if object != number
            || !is_wanted(of_all, *found, *steps)
            || !is_wanted(&alone, *found, *steps)
        {
            return false;
        }
    }
    true
}

fn history_of(alloc: Global, text: &[u8]) -> Result<History, Fail> {
    read_history_text(alloc, text).map_err(|_| Fail::new("a history is refused"))
}

#[test]
fn a_search_tries_the_least_number_first_in_these_steps(rt: HostRuntime) -> Result<(), Fail> {
    let alloc = rt.alloc();
    for (row, (text, limit, wanted)) in ROWS.iter().enumerate() {
        let history = history_of(alloc, text)?;
        let objects = split(alloc, &history)?;
        let all = search_all(alloc, &history, *limit)?;
        assert!(rt;
            are_wanted(alloc, &all, &objects, *limit, wanted),
            "row {row}"
        );
    }
    Ok(())
}

/// The dequeue is tried first, and answers nil.
#[test]
fn a_search_by_return_takes_a_step_more(rt: HostRuntime) -> Result<(), Fail> {
    let history = history_of(rt.alloc(), PENDING)?;
    let objects = split(rt.alloc(), &history)?;
    let Some(object) = objects.first() else {
        return Err(Fail::new("no object is searched"));
    };
    let by_return = search_by(rt.alloc(), object, TryFirst::LeastReturn, AMPLE);
    assert!(rt; is_wanted(&by_return, Order(&[0, 1]), 3));
    Ok(())
}
