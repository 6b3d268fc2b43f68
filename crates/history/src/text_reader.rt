//! From a text to a history, element by element.

ghost use Rattle.std.specs.Prelude.{◌≡◌, ◌≢◌, ◌<◌, ◌+◌, ◌++◌, ◌∷◌, [], List, length, IfOk, IfErr};
ghost use Rattle.std.specs.Prelude.{OnOk, MatchResult};
ghost use Rattle.edn_reader.specs.Datum.{Datum};
ghost use Rattle.edn_reader.specs.Sound.{IsShort};
ghost use Rattle.edn_reader.specs.Spells.{Spells};
ghost use Rattle.events.specs.declared.event.Event.{Event};
ghost use Rattle.history.specs.Denotes.{Denotes};
ghost use Rattle.history.specs.Texts.{IsHistoryFaultIn, IsHistoryTextFault};
ghost use Rattle.history.specs.Views.{Says};

use crate::client_map::OperationMap;
use crate::fault::{HistoryFault, TextFault};
use crate::map_reader::MapReader;
use crate::seen::{Seen, read_next};
use events::{Event, History};
use std::alloc::Global;

/// What was read: the maps so far, and what is wrong with the first of them that is faulty.
#[derive(Drop)]
struct Reading {
    seen: Seen,
    events: Vec<Event>,
    map: usize,
    fault: Option<HistoryFault>,
}

impl Reading {
    ghost use Rattle.std.specs.Prelude.{None};
    ghost use Rattle.history.specs.Texts.{IsHistoryReading};

    fn new(alloc: Global) -> Reading
        ensures { IsHistoryReading result [] }
    {
        Reading {
            seen: Seen::new(alloc),
            events: Vec::new(alloc),
            map: 0,
            fault: None,
        }
    }

    /// Reads one more map from what it says. No map so far may be faulty.
    fn take_said(&mut self, said: OperationMap)
        requires { self.old.fault ≡ None }
        ensures { (ds : List Datum) (d : Datum) → Says said d
            → IsHistoryReading self.old ds → IsHistoryReading self.new (ds ++ d ∷ []) }
    {
        let map = self.map;
        match read_next(&mut self.seen, &mut self.events, map, said) {
            Ok(()) => self.map = map + 1,
            Err(kind) => self.fault = Some(HistoryFault { kind, map }),
        }
    }

    /// Reads one more map from what it says, or keeps the fault of an earlier one.
    fn take(&mut self, said: OperationMap)
        ensures { (ds : List Datum) (d : Datum) → Says said d
            → IsHistoryReading self.old ds → IsHistoryReading self.new (ds ++ d ∷ []) }
    {
        if self.fault.is_none() {
            self.take_said(said);
        }
    }

    /// The history, or what is wrong with a map.
    fn finish(self) -> Result<History, HistoryFault>
        requires { (ds : List Datum) × IsHistoryReading self ds }
        ensures { (ds : List Datum) → IsHistoryReading self ds →
            MatchResult result (λ h. Denotes ds h) (IsHistoryFaultIn ds) }
    {
        let Reading {
            seen: _,
            events,
            map: _,
            fault,
        } = self;
        match fault {
            Some(fault) => Err(fault),
            None => Ok(History::new(events)),
        }
    }
}

/// Reads the history that the text denotes, each form being one operation map, or returns what is
/// wrong. What is wrong with the text comes before what is wrong with a map: after the first map
/// that is faulty, or for which an allocation failed, the text is still read to its end. The forms
/// of the text are never in memory together, and of a value only what can be an argument or a
/// reply.
pub fn read_history_text(alloc: Global, text: &[u8]) -> Result<History, TextFault>
    ensures denotes { IfOk result (λ h. (ds : List Datum) × Spells ds text.now × Denotes ds h) }
    ensures short { OnOk result (IsShort text.now) }
    ensures fault { IfErr result (IsHistoryTextFault text.now) }
{
    let mut maps = match MapReader::new(alloc, text) {
        Ok(maps) => maps,
        Err(fault) => return Err(TextFault::Text(fault)),
    };
    let mut reading = Reading::new(alloc);
    'forms: loop {
        match maps.advance() {
            Ok(Some(said)) => reading.take(said),
            Ok(None) => match reading.finish() {
                Ok(history) => return Ok(history),
                Err(fault) => return Err(TextFault::Maps(fault)),
            },
            Err(fault) => return Err(TextFault::Text(fault)),
        }
    }
}
