//! A piece of a history's text, read by itself.

ghost use Rattle.std.specs.Prelude.{◌≡◌, ◌<◌, ◌++◌, ◌∷◌, [], IfSome, OnSome, List, Some};
ghost use Rattle.number_map.specs.Lookup.{value_of};
ghost use Rattle.edn_reader.specs.Datum.{Datum};
ghost use Rattle.edn_reader.specs.Spells.{Spells};
ghost use Rattle.history.specs.Noting.{NotesProcess, NotesObject};
ghost use Rattle.history.specs.ReadPieces.{IsOfForms};
ghost use Rattle.history.specs.Views.{Says};

use crate::client_map::{ClientMap, MapType, OperationMap, action_of};
use crate::map_faults::{is_of_other_kind, process_fault};
use crate::map_reader::MapReader;
use crate::seen::{MAX_MAPS, Process, Seen, is_great, process_after};
use events::Event;
use number_map::NumberMap;
use seq_objects::{Function, Kind};
use std::alloc::Global;

/// What a map of a client without a fault of its own asks of its process. Of each process a piece
/// keeps its first one.
#[derive(Clone, Copy)]
pub struct FirstMap {
    pub(crate) map_type: MapType,
    pub(crate) function: Function,
    pub(crate) process: u64,
    pub(crate) object: u32,
}

/// What a piece of a history says by itself: what its maps leave of each process and of each object
/// that they name, the first map of each process, a list of the objects, the number of the maps,
/// and the events, whose numbers are counted from the piece's first map. Whether the piece may
/// follow other maps depends on its first maps and its objects alone.
#[derive(Drop)]
pub struct ReadPiece {
    pub(crate) seen: Seen,
    pub(crate) firsts: Vec<FirstMap>,
    pub(crate) objects: Vec<u32>,
    pub(crate) maps: usize,
    pub(crate) events: Vec<Event>,
}

/// Takes in what one more map says of its process. The first map of a process is kept, and each
/// other one is checked.
#[inline(always)]
fn note_process(
    processes: &mut NumberMap<Process>,
    firsts: &mut Vec<FirstMap>,
    map: FirstMap,
) -> Option<()>
    ensures { OnSome result (NotesProcess (value_of processes.old) (value_of processes.new)
        firsts.old.items firsts.new.items map) }
{
    let FirstMap {
        map_type,
        function,
        process,
        object,
    } = map;
    match processes.get(process) {
        None => firsts.push(map).ok()?,
        kept => {
            if process_fault(kept, map_type, function, object).is_some() {
                return None;
            }
        }
    }
    let doing = process_after(map_type, function, object);
    processes.insert(process, doing).ok()
}

/// Takes in that one more map has this function on this object. The object is listed with its kind
/// at its first map, and checked at each other one.
#[inline(always)]
fn note_object(
    kinds: &mut NumberMap<Kind>,
    objects: &mut Vec<u32>,
    object: u32,
    function: Function,
) -> Option<()>
    ensures { OnSome result (NotesObject (value_of kinds.old) (value_of kinds.new)
        objects.old.items objects.new.items object function) }
{
    let kept = kinds.get(object as u64);
    if kept.is_some() {
        if is_of_other_kind(kept, function) {
            return None;
        }
        return Some(());
    }
    objects.push(object).ok()?;
    kinds.insert(object as u64, function.kind()).ok()
}

impl ReadPiece {
    ghost use Rattle.history.specs.declared.client_map.OperationMap.TheVariants.{OfClient};

    /// A piece without maps.
    pub fn new(alloc: Global) -> ReadPiece
        ensures { IsOfForms result [] }
    {
        ReadPiece {
            seen: Seen::new(alloc),
            firsts: Vec::new(alloc),
            objects: Vec::new(alloc),
            maps: 0,
            events: Vec::new(alloc),
        }
    }

    /// Takes in one more map, of a client, unless it has a fault.
    #[inline(always)]
    fn take_client(&mut self, m: &ClientMap) -> Option<()>
        requires { self.old.maps < 1000000 }
        ensures { OnSome result ((ds : List Datum) (d : Datum) → Says (OfClient m.now) d
            → IsOfForms self.old ds → IsOfForms self.new (ds ++ d ∷ [])) }
    {
        let function = m.function?;
        let action = action_of(m, function)?;
        if is_great(m.object) {
            return None;
        }
        let event = Event {
            number: self.maps as u32,
            process: m.process,
            object: m.object,
            action,
        };
        let map = FirstMap {
            map_type: m.map_type,
            function,
            process: m.process,
            object: m.object,
        };
        note_process(&mut self.seen.processes, &mut self.firsts, map)?;
        note_object(&mut self.seen.kinds, &mut self.objects, m.object, function)?;
        self.events.push(event).ok()?;
        self.maps += 1;
        Some(())
    }

    /// Takes in one more map, unless it has a fault.
    #[inline(always)]
    fn take(&mut self, said: OperationMap) -> Option<()>
        ensures { OnSome result ((ds : List Datum) (d : Datum) → Says said d
            → IsOfForms self.old ds → IsOfForms self.new (ds ++ d ∷ [])) }
    {
        if self.maps >= MAX_MAPS {
            return None;
        }
        match said {
            OperationMap::OfClient(m) => self.take_client(&m),
            OperationMap::Ignored => {
                self.maps += 1;
                Some(())
            }
            OperationMap::Neither => None,
        }
    }

    /// Takes in the maps of these lines, in which each form is one operation map. `None` is no
    /// verdict on the lines, and then nothing is known of the piece: the lines spell no forms, a
    /// map of them has a fault after those of the piece before it, they are too many, or an
    /// allocation failed.
    pub fn read_lines(&mut self, alloc: Global, lines: &[u8]) -> Option<()>
        ensures { OnSome result ((ds : List Datum) → IsOfForms self.old ds
            → (es : List Datum) × Spells es lines.now × IsOfForms self.new (ds ++ es)) }
    {
        let Ok(mut maps) = MapReader::new(alloc, lines) else {
            return None;
        };
        'forms: loop {
            match maps.advance() {
                Ok(Some(said)) => self.take(said)?,
                Ok(None) => return Some(()),
                Err(_) => return None,
            }
        }
    }
}
