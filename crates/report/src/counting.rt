//! What a history has, in all and of each kind.

ghost use Rattle.std.specs.Prelude.{◌≡◌, ◌≢◌, ◌==◌, ◌+◌, ◌++◌, ◌↔◌, ℕ, AllPairs, Contains, None};
ghost use Rattle.std.specs.Prelude.{if◌then◌else◌, true, false, IfOk, OnOk, length, map, reverse};
ghost use Rattle.std.specs.Prelude.{List, [], ◌∷◌, ◌≤◌, is_some, unwrap_or};
ghost use Rattle.std.specs.List.{list_any};
ghost use Rattle.indexmap.specs.IndexMap.{keys, values};
ghost use Rattle.number_map.specs.Lookup.{value_of};
ghost use Rattle.events.specs.Events as spec;
ghost use Rattle.events.specs.declared.event.Event.{Event};
ghost use Rattle.events.specs.Events.{IsNamed};
ghost use Rattle.report.specs.Counts.{same_kind, with_new, first_seen, uses, objects_in};
ghost use Rattle.report.specs.Counts.{kinds_in, operations_in, count_of, AreCountsOf};
ghost use Rattle.report.specs.Invoked.{invocations, invocation_by, is_of, operation_count};
ghost use Rattle.report.specs.Invoked.{object_numbers, kind_count, AreSeen};
ghost use Rattle.report.specs.declared.counting.Invoked.{Invoked};

use crate::verdict::{KindCount, Summary};
use events::{Action, Event, History};
use indexmap::IndexMap;
use number_map::NumberMap;
use seq_objects::{AnyObject, Kind, SeqObject};
use std::alloc::{AllocError, Global};

/// An invocation: its object, the kind of its operation, and whether that failed.
#[derive(Clone, Copy)]
struct Invoked {
    object: u32,
    kind: Kind,
    failed: bool,
}

fn is_same_kind(left: Kind, right: Kind) -> bool
    ensures { result ≡ same_kind left right }
{
    left == right
}

fn is_of(kind: Option<Kind>, invoked: &Invoked) -> bool
    ensures { result ≡ is_of kind invoked.now }
{
    match kind {
        Some(kind) => is_same_kind(kind, invoked.kind),
        None => true,
    }
}

fn is_fail(action: &Action) -> bool
    ensures { result ≡ spec.is_fail action.now }
{
    match action {
        Action::Fail => true,
        Action::Invoke(_) | Action::Ok(_) | Action::Info => false,
    }
}

/// Puts the invocation that an event is, if it is one, after the others.
fn push_invoked(all: &mut Vec<Invoked>, event: &Event, failed: bool) -> Result<(), AllocError>
    ensures { OnOk result (reverse all.new.items
        ≡ invocation_by event.now.object event.now.action failed ++ reverse all.old.items) }
{
    match event.action {
        Action::Invoke(op) => {
            let kind = AnyObject::kind_of(&op);
            let object = event.object;
            all.push(Invoked {
                object,
                kind,
                failed,
            })?;
            Ok(())
        }
        Action::Ok(_) | Action::Fail | Action::Info => Ok(()),
    }
}

/// Whether the next event of the process, if it has one, says that its operation failed.
fn is_failing(failing: &NumberMap<bool>, process: u64) -> bool
    ensures { result ≡ unwrap_or (value_of failing.now process) false }
{
    failing.get(process).unwrap_or(false)
}

/// Takes in one more event, from the last one back: whether it says that an operation of its
/// process failed.
fn note_end(failing: &mut NumberMap<bool>, event: &Event) -> Result<(), AllocError>
    ensures { OnOk result ((p : ℕ) → unwrap_or (value_of failing.new p) false
        ≡ (if event.now.process == p then spec.is_fail event.now.action
        else unwrap_or (value_of failing.old p) false)) }
{
    failing.insert(event.process, is_fail(&event.action))
}

/// The invocations in their order.
fn invoked_in(alloc: Global, events: &[Event]) -> Result<Vec<Invoked>, AllocError>
    ensures { IfOk result (λ v. v.items ≡ invocations events.now) }
{
    let mut failing = NumberMap::new(alloc);
    let mut all = Vec::new(alloc);
    for k in (0..events.len()).rev() {
        let event = &events[k];
        let failed = is_failing(&failing, event.process);
        push_invoked(&mut all, event, failed)?;
        note_end(&mut failing, event)?;
    }
    all.reverse();
    Ok(all)
}

fn count_operations(kind: Option<Kind>, all: &[Invoked]) -> usize
    ensures { result ≡ operation_count kind all.now }
{
    all.iter().filter(|i| is_of(kind, i) && !i.failed).count()
}

/// Inserts an object. Returns 1 if it is new, otherwise 0.
fn insert_object(objects: &mut NumberMap<()>, object: u32) -> Result<usize, AllocError>
    ensures among { OnOk result ((x : ℕ) → is_some (value_of objects.new x)
        ≡ (if object == x then true else is_some (value_of objects.old x))) }
    ensures more { IfOk result (λ more. more ≡
        (if is_some (value_of objects.old object) then 0 else 1)) }
{
    let object = object as u64;
    if objects.get(object).is_some() {
        return Ok(0);
    }
    objects.insert(object, ())?;
    Ok(1)
}

/// Takes in one more invocation, and says how many more objects are then named.
fn count_more(
    objects: &mut NumberMap<()>,
    kind: Option<Kind>,
    invoked: &Invoked,
) -> Result<usize, AllocError>
    ensures seen { IfOk result (λ more. (n : ℕ) (all : List Invoked)
        → AreSeen (λ x. is_some (value_of objects.old x)) n (object_numbers kind all)
        → AreSeen (λ x. is_some (value_of objects.new x)) (n + more)
        (object_numbers kind (all ++ invoked.now ∷ []))) }
    ensures few { IfOk result (λ more. more ≤ 1) }
{
    if is_of(kind, invoked) {
        let more = insert_object(objects, invoked.object)?;
        return Ok(more);
    }
    Ok(0)
}

/// How many objects the invocations name, those of the kind or all.
fn count_objects(alloc: Global, kind: Option<Kind>, all: &[Invoked]) -> Result<usize, AllocError>
    ensures { IfOk result (λ n. n ≡ length (object_numbers kind all.now)) }
{
    let mut objects = NumberMap::new(alloc);
    let mut count = 0;
    for invoked in all {
        count += count_more(&mut objects, kind, invoked)?;
    }
    Ok(count)
}

/// The counts of one kind.
fn count_kind(alloc: Global, kind: Kind, all: &[Invoked]) -> Result<KindCount, AllocError>
    ensures { IfOk result (λ c. c ≡ kind_count all.now kind) }
{
    Ok(KindCount {
        kind,
        objects: count_objects(alloc, Some(kind), all)?,
        operations: count_operations(Some(kind), all),
    })
}

/// Whether a kind has its counts. There are few, so they are compared one by one, and not
/// by hash.
fn is_among(counts: &IndexMap<Kind, KindCount>, kind: Kind) -> bool
    ensures { result ≡ list_any (same_kind kind) (keys counts.now) }
{
    counts.keys().any(|known| is_same_kind(kind, *known))
}

/// Puts in the counts of a kind, if it is new.
fn note_kind(
    alloc: Global,
    counts: &mut IndexMap<Kind, KindCount>,
    kind: Kind,
    all: &[Invoked],
) -> Result<(), AllocError>
    ensures kinds { OnOk result (keys counts.new ≡ with_new same_kind (keys counts.old) kind) }
    ensures counted { values counts.old ≡ map (kind_count all.now) (keys counts.old)
        → OnOk result (values counts.new ≡ map (kind_count all.now) (keys counts.new)) }
{
    if is_among(counts, kind) {
        return Ok(());
    }
    counts.insert(kind, count_kind(alloc, kind, all)?)?;
    Ok(())
}

/// The counts of each kind, in the order of their first invocations.
fn count_kinds(alloc: Global, all: &[Invoked]) -> Result<IndexMap<Kind, KindCount>, AllocError>
    ensures { IfOk result (λ m. values m
        ≡ map (kind_count all.now) (first_seen same_kind (map (λ i. i.kind) all.now))) }
{
    let mut counts = IndexMap::new(alloc);
    for invoked in all {
        note_kind(alloc, &mut counts, invoked.kind, all)?;
    }
    Ok(counts)
}

/// The counts in a list, in their order.
fn list_of(alloc: Global, counts: IndexMap<Kind, KindCount>) -> Result<Vec<KindCount>, AllocError>
    ensures { IfOk result (λ v. v.items ≡ values counts) }
{
    counts.into_values().collect(alloc)
}

/// What these invocations have.
fn summary_of_invoked(alloc: Global, all: &[Invoked]) -> Result<Summary, AllocError>
    ensures { (es : List Event) → all.now ≡ invocations es
        → IfOk result (λ s. AreCountsOf es s) }
{
    let counts = count_kinds(alloc, all)?;
    Ok(Summary {
        operations: count_operations(None, all),
        objects: count_objects(alloc, None, all)?,
        kinds: list_of(alloc, counts)?,
    })
}

/// What a list of events has.
pub(crate) fn summary_of(alloc: Global, events: &[Event]) -> Result<Summary, AllocError>
    ensures { IfOk result (AreCountsOf events.now) }
{
    let all = invoked_in(alloc, events)?;
    summary_of_invoked(alloc, &all)
}

/// Counts what a history has. The operations are those that did not fail. The objects and the kinds
/// are those that some invocation names, even a failed one.
pub fn summary(alloc: Global, history: &History) -> Result<Summary, AllocError>
    ensures operations { IfOk result (λ s. s.operations ≡ length (operations_in history.now)) }
    ensures objects { IfOk result (λ s. s.objects ≡ length (objects_in (uses history.now))) }
    // These are the objects that some invocation names, each once.
    ensures named { (x : ℕ) → Contains (objects_in (uses history.now)) x ↔ IsNamed history.now x }
    ensures once { AllPairs (λ x y. x ≢ y) (objects_in (uses history.now)) }
    // The kinds are in the order of their first invocations, each once.
    ensures kinds { IfOk result (λ s. s.kinds.items
        ≡ map (count_of history.now) (kinds_in (uses history.now))) }
    ensures kinds_once { AllPairs (λ k l. k ≢ l) (kinds_in (uses history.now)) }
{
    summary_of(alloc, history.events())
}
