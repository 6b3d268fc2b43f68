//! The operations that a search is to order, in the order in which it tries them.

ghost use Rattle.std.specs.Prelude.{◌≡◌, ℕ, ◌<◌, ◌≤◌, length, IfOk, OnOk, IsSome, All, AllPairs};
ghost use Rattle.std.specs.Prelude.{filter, count_by, is_some};
ghost use Rattle.std.specs.List.Sorted.{IsPermutation};
ghost use Rattle.model.specs.Objects.{kind_of};
ghost use Rattle.events.specs.Operations.{call_of, calls_of, return_of, IsObjectHistory};
ghost use Rattle.order_search.specs.Arranged.{AreFloors, IsArranged, call_at};
ghost use Rattle.order_search.specs.Outcomes.{max_places};

use events::{End, ObjectHistory, Operation};
use seq_objects::Kind;
use std::alloc::{AllocError, Global};

/// Which of the operations that can come next in an order is tried first.
#[derive(Clone, Copy, Debug, PartialEq, Eq)]
pub enum TryFirst {
    /// That with the least number.
    LeastNumber,
    /// That with the least return. Operations that are pending come last.
    LeastReturn,
}

/// The operations of an object of this kind that did not fail, in the order in which they are
/// tried.
#[derive(Drop)]
pub(crate) struct Trials {
    pub kind: Kind,
    pub items: Vec<Operation>,
    /// For each place the least number from there on.
    pub floors: Vec<u32>,
    /// For each place the least number from there on of an operation that returned.
    pub return_floors: Vec<u32>,
    /// All operations below this place have returned.
    pub pending: u32,
}

/// Whether the operation may have happened.
fn may_have_happened(operation: &Operation) -> bool
    ensures { result ≡ is_some (call_of operation.now) }
{
    match operation.end {
        End::Failed => false,
        _ => true,
    }
}

/// How many operations did not fail.
pub fn call_count(operations: &[Operation]) -> usize
    ensures { result ≡ length (calls_of operations.now) }
{
    operations.iter().filter(|o| may_have_happened(o)).count()
}

/// How many operations returned.
pub(crate) fn return_count(operations: &[Operation]) -> usize
    ensures { result ≡ count_by (λ o. is_some (return_of o.«end»)) operations.now }
{
    operations.iter().filter(|o| o.end.has_returned()).count()
}

/// For each place the least number from there on, of all operations or of those that returned.
fn floors_of(alloc: Global, items: &[Operation], of_all: bool) -> Result<Vec<u32>, AllocError>
    ensures { IfOk result (λ v. AreFloors of_all items.now v.items) }
{
    let mut floors = vec![in alloc; u32::MAX; items.len()]?;
    let mut least = u32::MAX;
    for k in (0..items.len()).rev() {
        if of_all || items[k].end.has_returned() {
            least = least.min(items[k].number);
        }
        floors[k] = least;
    }
    Ok(floors)
}

/// A place below which all operations have returned: the first one that has not, or the end.
fn first_pending(items: &[Operation]) -> u32
    requires { length items.now ≤ max_places }
    ensures within { result ≤ length items.now }
    ensures returned { (k : ℕ) → k < result → IsSome (call_at items.now k).returned }
{
    let mut place: u32 = 0;
    for item in items {
        if !item.end.has_returned() {
            break;
        }
        place += 1;
    }
    place
}

/// The number of the return, or one after all.
fn return_number(end: &End) -> u64 {
    match end {
        End::Returned { at, .. } => u64::from(*at),
        _ => u64::MAX,
    }
}

/// The operations that may have happened.
fn items_of(alloc: Global, operations: &[Operation]) -> Result<Vec<Operation>, AllocError>
    ensures { IfOk result (λ v. v.items ≡ filter (λ o. is_some (call_of o)) operations.now) }
{
    operations
        .iter()
        .filter(|o| may_have_happened(o))
        .copied()
        .collect(alloc)
}

/// Puts the operations, which are by rising number, into the order in which they are tried.
fn arrange(items: &mut Vec<Operation>, first: TryFirst) -> Result<(), AllocError>
    ensures { IsPermutation items.old.items items.new.items }
{
    match first {
        TryFirst::LeastNumber => Ok(()),
        TryFirst::LeastReturn => items.sort_by_key(|o| return_number(&o.end)),
    }
}

impl Trials {
    pub fn new(
        alloc: Global,
        history: &ObjectHistory,
        first: TryFirst,
    ) -> Result<Trials, AllocError>
        requires few { length (calls_of history.now.ops) ≤ max_places }
        ensures kind { IfOk result (λ t. t.kind ≡ history.now.kind) }
        ensures items { IfOk result (λ t.
            IsPermutation (filter (λ o. is_some (call_of o)) history.now.ops) t.items.items) }
        ensures arranged { IfOk result (λ t. IsArranged t.kind t.items.items t.floors.items
            t.return_floors.items t.pending) }
    {
        let mut items = items_of(alloc, history.ops())?;
        arrange(&mut items, first)?;
        let floors = floors_of(alloc, &items, true)?;
        let return_floors = floors_of(alloc, &items, false)?;
        let pending = first_pending(&items);
        let kind = history.kind();
        Ok(Trials {
            kind,
            items,
            floors,
            return_floors,
            pending,
        })
    }
}
