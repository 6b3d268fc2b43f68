//! Pieces of a history's text that are joined, one after another.

ghost use Rattle.std.specs.Prelude.{◌≡◌, ◌≢◌, ◌++◌, [], ℕ, IfSome, OnSome, List, All, map, true};
ghost use Rattle.number_map.specs.Lookup.{value_of};
ghost use Rattle.edn_reader.specs.Datum.{Datum};
ghost use Rattle.model.specs.declared.Kind.{Kind};
ghost use Rattle.events.specs.Operations.{IsListed};
ghost use Rattle.history.specs.Denotes.{Denotes};
ghost use Rattle.history.specs.Noting.{TakesOver, IsOneKind, shift_event};
ghost use Rattle.history.specs.ReadPieces.{IsAllowed, IsOfForms, AreJoined, kept_after};

use crate::map_faults::{is_one_kind, process_fault};
use crate::piece::{FirstMap, ReadPiece};
use crate::seen::{MAX_MAPS, Process, Seen};
use events::{Event, History};
use number_map::NumberMap;
use seq_objects::Kind;
use std::alloc::Global;

/// The pieces so far: what their maps leave of each process and of each object, their events, and
/// the number of their maps.
#[derive(Drop)]
pub(crate) struct Seams {
    seen: Seen,
    events: Vec<Event>,
    maps: usize,
}

/// Whether each process may do what its first map says.
fn are_allowed(processes: &NumberMap<Process>, firsts: &[FirstMap]) -> bool
    ensures { result ≡ true → All (IsAllowed (value_of processes.now)) firsts.now }
{
    for first in firsts {
        let kept = processes.get(first.process);
        let object = first.object;
        if process_fault(kept, first.map_type, first.function, object).is_some() {
            return false;
        }
    }
    true
}

/// Whether each of the objects has one kind, if two are kept of it.
fn are_of_one_kind(kinds: &NumberMap<Kind>, own: &NumberMap<Kind>, objects: &[u32]) -> bool
    ensures { result ≡ true →
        All (λ x. IsOneKind (value_of kinds.now x) (value_of own.now x)) objects.now }
{
    for object in objects {
        let key = *object as u64;
        if !is_one_kind(kinds.get(key), own.get(key)) {
            return false;
        }
    }
    true
}

/// Gives the key the value that another map has for it, if it has one.
#[inline(always)]
fn take_over<V: Copy + Drop>(values: &mut NumberMap<V>, own: &NumberMap<V>, key: u64) -> Option<()>
    ensures { OnSome result (TakesOver (value_of values.old) (value_of own.now)
        (value_of values.new) key) }
{
    if let Some(value) = own.get(key) {
        values.insert(key, value).ok()?;
    }
    Some(())
}

/// Keeps what a piece leaves of each of its processes.
fn keep_processes(
    processes: &mut NumberMap<Process>,
    own: &NumberMap<Process>,
    firsts: &[FirstMap],
) -> Option<()>
    ensures { OnSome result ((p : ℕ) →
        IsListed (value_of own.now p) (map (λ m. m.process) firsts.now) p
        → value_of processes.new p ≡ kept_after (value_of processes.old) (value_of own.now) p) }
{
    for first in firsts {
        take_over(processes, own, first.process)?;
    }
    Some(())
}

/// Keeps the kind of each object of a piece.
fn keep_kinds(kinds: &mut NumberMap<Kind>, own: &NumberMap<Kind>, objects: &[u32]) -> Option<()>
    ensures { OnSome result ((x : ℕ) → IsListed (value_of own.now x) objects.now x
        → value_of kinds.new x ≡ kept_after (value_of kinds.old) (value_of own.now) x) }
{
    for object in objects {
        take_over(kinds, own, *object as u64)?;
    }
    Some(())
}

/// The event with its number counted from this many maps earlier.
#[inline(always)]
fn shifted(event: &Event, earlier: u32) -> Option<Event>
    ensures { IfSome result (λ e. e ≡ shift_event earlier event.now) }
{
    let number = earlier.checked_add(event.number)?;
    Some(Event { number, ..*event })
}

/// Puts events after others, with their numbers counted from this many maps earlier.
fn append(events: Vec<Event>, more: &[Event], earlier: u32) -> Option<Vec<Event>>
    ensures { IfSome result (λ v. v.items ≡ events.items ++ map (shift_event earlier) more.now) }
{
    let mut joined = events;
    for event in more {
        joined.push(shifted(event, earlier)?).ok()?;
    }
    Some(joined)
}

/// The events of the pieces so far, which have this many maps, and those of one more piece. If
/// there are none so far, the piece's list is taken as it is.
fn join_events(events: Vec<Event>, more: Vec<Event>, earlier: u32) -> Option<Vec<Event>>
    ensures { IfSome result (λ v. v.items ≡ events.items ++ map (shift_event earlier) more.items) }
{
    if earlier == 0 && events.is_empty() {
        return Some(more);
    }
    append(events, &more, earlier)
}

impl Seams {
    /// No pieces yet.
    pub fn new(alloc: Global) -> Seams
        ensures { AreJoined result [] }
    {
        Seams {
            seen: Seen::new(alloc),
            events: Vec::new(alloc),
            maps: 0,
        }
    }

    /// Joins one more piece to those before it. `None` is no verdict on the pieces: a map of this
    /// one has a fault after theirs, their maps are too many, or an allocation failed.
    pub fn add(self, read: ReadPiece) -> Option<Seams>
        ensures { IfSome result (λ s. (ds es : List Datum) → AreJoined self ds → IsOfForms read es
            → AreJoined s (ds ++ es)) }
    {
        let Seams {
            mut seen,
            events,
            maps: before,
        } = self;
        let ReadPiece {
            seen: own,
            firsts,
            objects,
            maps,
            events: more,
        } = read;
        if maps > MAX_MAPS || before > MAX_MAPS - maps {
            return None;
        }
        if !are_allowed(&seen.processes, &firsts) {
            return None;
        }
        if !are_of_one_kind(&seen.kinds, &own.kinds, &objects) {
            return None;
        }
        keep_processes(&mut seen.processes, &own.processes, &firsts)?;
        keep_kinds(&mut seen.kinds, &own.kinds, &objects)?;
        let events = join_events(events, more, before as u32)?;
        let maps = before + maps;
        Some(Seams { seen, events, maps })
    }

    /// The history, if the pieces so far are all.
    pub fn into_history(self) -> History
        requires { (ds : List Datum) × AreJoined self ds }
        ensures { (ds : List Datum) → AreJoined self ds → Denotes ds result }
    {
        History::new(self.events)
    }
}
