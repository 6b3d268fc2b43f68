//! The search for an order of the operations of one object.

ghost use Rattle.std.specs.Prelude.{◌≡◌, ◌≢◌, ◌<◌, ◌≤◌, ◌↔◌, [], length, All, Any, IsSome, IfOk};
ghost use Rattle.std.specs.Prelude.{map, pos, count_by, is_some};
ghost use Rattle.model.specs.Orders.{IsValidOrder, HasNoValidOrder};
ghost use Rattle.events.specs.Operations.{calls_of, return_of};
ghost use Rattle.order_search.specs.Arranged.{call_at};
ghost use Rattle.order_search.specs.Outcomes.{IfFound, max_operations, max_places};
ghost use Rattle.order_search.specs.Searching.{AreTrials, AreOwed, IsNoOrder, IsOrderOfTrials};

use crate::level::Level;
use crate::trials::{Trials, TryFirst, call_count, return_count};
use crate::walk::{Ending, State};
use events::{ObjectHistory, Operation};
use std::alloc::{AllocError, Global};

/// How a search ends.
#[derive(Debug, Drop)]
pub enum OrderOutcome {
    /// An order that is valid.
    Found(Vec<i64>),
    /// No order is valid.
    Impossible,
    /// There is no answer within the limit of steps.
    OutOfSteps,
    /// There are more than 4,096 operations that did not fail.
    TooLarge,
    NoMemory,
}

/// How a search ended, and its number of steps. Each operation that is tried is a step; no clause
/// says that they are counted so, only that their number is within the limit.
#[derive(Debug, Drop)]
pub struct OrderSearch {
    pub outcome: OrderOutcome,
    pub steps: u64,
}

/// The most operations, without the failed ones, that `find_order` searches.
const MAX_OPERATIONS: usize = 4096;

/// How many operations have places, so that the one after the last is a number of 32 bits.
const MOST_PLACES: usize = 4_294_967_294;

/// The numbers of the operations at the places of the levels.
fn order_of(alloc: Global, items: &[Operation], levels: &[Level]) -> Result<Vec<i64>, AllocError>
    requires { All (λ l. l.place < length items.now) levels.now }
    ensures { IfOk result (λ v. v.items ≡ map
        (λ l. pos (call_at items.now l.place).number) levels.now) }
{
    let mut order = Vec::new(alloc);
    for level in levels {
        order.push(i64::from(items[level.place as usize].number))?;
    }
    Ok(order)
}

/// Searches from nothing.
fn search_from_start(
    alloc: Global,
    trials: &Trials,
    left: usize,
    limit: u64,
    steps: &mut u64,
) -> Result<OrderOutcome, AllocError>
    requires trials { AreTrials trials.now }
    requires counts { AreOwed trials.now left }
    requires owed { 0 < left }
    requires steps { steps.old ≤ limit }
    ensures steps { steps.new ≤ limit }
    ensures found { IfOk result (λ o. IfFound o (IsOrderOfTrials trials.now)) }
    ensures impossible { IfOk result (λ o. o ≡ OrderOutcome.Impossible → IsNoOrder trials.now) }
    ensures out_of_steps { IfOk result (λ o. o ≡ OrderOutcome.OutOfSteps → steps.new ≡ limit) }
    ensures decided { IfOk result (λ o. (o ≢ OrderOutcome.TooLarge) × (o ≢ OrderOutcome.NoMemory)) }
{
    let mut state = State::begin(alloc, trials, left)?;
    match state.run(alloc, trials, limit, steps)? {
        Ending::Done => Ok(OrderOutcome::Found(order_of(alloc, &trials.items, &state.levels)?)),
        Ending::Impossible => Ok(OrderOutcome::Impossible),
        Ending::OutOfSteps => Ok(OrderOutcome::OutOfSteps),
    }
}

/// Searches if some operation returned and there are not too many. An allocation failure is an
/// error.
fn search_operations(
    alloc: Global,
    history: &ObjectHistory,
    first: TryFirst,
    left: usize,
    limit: u64,
    steps: &mut u64,
) -> Result<OrderOutcome, AllocError>
    requires few { length (calls_of history.now.ops) ≤ max_places }
    requires counts { left ≡ count_by (λ o. is_some (return_of o.«end»)) history.now.ops }
    requires owed { 0 < left }
    requires steps { steps.old ≤ limit }
    ensures steps { steps.new ≤ limit }
    ensures found { IfOk result (λ o. IfFound o
        (IsValidOrder history.now.kind (calls_of history.now.ops))) }
    ensures impossible { IfOk result (λ o. o ≡ OrderOutcome.Impossible →
        HasNoValidOrder history.now.kind (calls_of history.now.ops)) }
    ensures out_of_steps { IfOk result (λ o. o ≡ OrderOutcome.OutOfSteps → steps.new ≡ limit) }
    ensures decided { IfOk result (λ o. (o ≢ OrderOutcome.TooLarge) × (o ≢ OrderOutcome.NoMemory)) }
{
    // This does nothing. It says that the operations are those of an object's history.
    history.ops();
    let trials = Trials::new(alloc, history, first)?;
    search_from_start(alloc, &trials, left, limit, steps)
}

/// Searches for an order of the operations that is valid, depth first, in at most n steps. A step
/// is one operation tried. Pairs of operations done and content from which nothing goes on are
/// remembered. More than 4,096 operations are too large.
///
/// That a limit is enough is not promised.
pub fn find_order(
    alloc: Global,
    history: &ObjectHistory,
    first: TryFirst,
    limit: u64,
) -> OrderSearch
    ensures found { IfFound result.outcome
        (IsValidOrder history.now.kind (calls_of history.now.ops)) }
    ensures impossible { result.outcome ≡ OrderOutcome.Impossible
        → HasNoValidOrder history.now.kind (calls_of history.now.ops) }
    ensures steps { result.steps ≤ limit }
    ensures out_of_steps { result.outcome ≡ OrderOutcome.OutOfSteps → result.steps ≡ limit }
    ensures too_large { (result.outcome ≡ OrderOutcome.TooLarge)
        ↔ (max_operations < length (calls_of history.now.ops)) }
    // The answer is NoMemory only if some operation returned.
    ensures memory { result.outcome ≡ OrderOutcome.NoMemory
        → Any (λ call. IsSome call.returned) (calls_of history.now.ops) }
{
    if call_count(history.ops()) > MAX_OPERATIONS {
        return OrderSearch {
            outcome: OrderOutcome::TooLarge,
            steps: 0,
        };
    }
    find_order_of_any_size(alloc, history, first, limit)
}

/// Searches as `find_order` does, for any number of operations: none is too many. If there are more
/// than 4,294,967,294, which no history within the limits of its form has, the answer is that the
/// steps are not enough.
pub fn find_order_of_any_size(
    alloc: Global,
    history: &ObjectHistory,
    first: TryFirst,
    limit: u64,
) -> OrderSearch
    ensures found { IfFound result.outcome
        (IsValidOrder history.now.kind (calls_of history.now.ops)) }
    ensures impossible { result.outcome ≡ OrderOutcome.Impossible
        → HasNoValidOrder history.now.kind (calls_of history.now.ops) }
    ensures steps { result.steps ≤ limit }
    ensures out_of_steps { result.outcome ≡ OrderOutcome.OutOfSteps → result.steps ≡ limit }
    ensures any_size { result.outcome ≢ OrderOutcome.TooLarge }
    // The answer is NoMemory only if some operation returned.
    ensures memory { result.outcome ≡ OrderOutcome.NoMemory
        → Any (λ call. IsSome call.returned) (calls_of history.now.ops) }
{
    let operations = history.ops();
    if call_count(operations) > MOST_PLACES {
        return OrderSearch {
            outcome: OrderOutcome::OutOfSteps,
            steps: limit,
        };
    }
    let left = return_count(operations);
    if left == 0 {
        return OrderSearch {
            outcome: OrderOutcome::Found(Vec::new(alloc)),
            steps: 0,
        };
    }
    let mut steps = 0;
    let outcome = match search_operations(alloc, history, first, left, limit, &mut steps) {
        Ok(outcome) => outcome,
        Err(_) => OrderOutcome::NoMemory,
    };
    OrderSearch { outcome, steps }
}
