//! The search for a certificate of one object.

ghost use Rattle.std.specs.Prelude.{◌≡◌, ◌<◌, ◌≤◌, ◌↔◌, length, Any, IsSome};
ghost use Rattle.model.specs.Orders.{HasNoValidOrder};
ghost use Rattle.events.specs.Operations.{calls_of};
ghost use Rattle.order_search.specs.Outcomes.{max_operations};
ghost use Rattle.search.specs.Answers.{IfFound, IsSearchAnswer};
ghost use Rattle.checker.specs.Refusals.{IsCertificateOf};
ghost use Rattle.search.specs.Answers.{search_for, outcome_for};

use crate::certificate_search::{CertificateOutcome, Search};
use certificate::Certificate;
use events::ObjectHistory;
use order_search::{OrderOutcome, OrderSearch, TryFirst, find_order};
use std::alloc::Global;

/// What was found, for the object with this number.
fn found_of(object: u32, outcome: OrderOutcome) -> CertificateOutcome
    ensures { result ≡ outcome_for object outcome }
{
    match outcome {
        OrderOutcome::Found(order) => CertificateOutcome::Found(Certificate { object, order }),
        OrderOutcome::Impossible => CertificateOutcome::Impossible,
        OrderOutcome::OutOfSteps => CertificateOutcome::OutOfSteps,
        OrderOutcome::TooLarge => CertificateOutcome::TooLarge,
        OrderOutcome::NoMemory => CertificateOutcome::NoMemory,
    }
}

/// The answer for the object with this number.
fn answer_of(object: u32, attempt: OrderSearch) -> Search
    ensures { result ≡ search_for object attempt }
{
    let OrderSearch { outcome, steps } = attempt;
    let found = found_of(object, outcome);
    Search { found, steps }
}

/// Searches for a certificate of an object, depth first, in at most n steps: a step is one
/// operation tried. Of the operations that can come next, that with the least number is tried
/// first.
///
/// No clause says that a search within some limit finds an answer.
pub fn search(alloc: Global, history: &ObjectHistory, limit: u64) -> Search
    ensures found { IfFound result.found
        (IsCertificateOf history.now.object history.now.kind (calls_of history.now.ops)) }
    // No order is valid, and so the history is not linearizable.
    ensures impossible { result.found ≡ CertificateOutcome.Impossible
        → HasNoValidOrder history.now.kind (calls_of history.now.ops) }
    ensures steps { result.steps ≤ limit }
    ensures out_of_steps { result.found ≡ CertificateOutcome.OutOfSteps → result.steps ≡ limit }
    ensures too_large { (result.found ≡ CertificateOutcome.TooLarge)
        ↔ (max_operations < length (calls_of history.now.ops)) }
    // The answer is NoMemory only if some operation returned.
    ensures memory { result.found ≡ CertificateOutcome.NoMemory
        → Any (λ call. IsSome call.returned) (calls_of history.now.ops) }
{
    search_by(alloc, history, TryFirst::LeastNumber, limit)
}

/// Searches as `search` does; `first` chooses which operation is tried first.
pub fn search_by(alloc: Global, history: &ObjectHistory, first: TryFirst, limit: u64) -> Search
    ensures { IsSearchAnswer history.now.object history.now.kind (calls_of history.now.ops) limit
        result }
{
    answer_of(history.object(), find_order(alloc, history, first, limit))
}
