//! The maps of a history of any length, one by one.

ghost use Rattle.std.specs.Prelude.{◌≡◌, ◌≢◌, ◌<◌, ◌++◌, ◌∷◌, [], List, length, IfOk, IfErr};
ghost use Rattle.std.specs.Prelude.{option_to_list};
ghost use Rattle.edn_reader.specs.Datum.{Datum};
ghost use Rattle.edn.specs.FirstFaults.{IsFirstFaultBy};
ghost use Rattle.history.specs.Denotes.{events_of_forms};
ghost use Rattle.history.specs.Faults.{IsMapFault, IsFaultlessAtAnyLength, history_fault_number};
ghost use Rattle.history.specs.LongReading.{AreReadAtAnyLength, IsOfPlace};
ghost use Rattle.history.specs.Views.{Says};

use crate::client_map::OperationMap;
use crate::fault::{HistoryFault, HistoryFaultKind};
use crate::seen::Seen;
use events::Event;
use std::alloc::Global;

/// What the maps so far say of each process and of each object, and the number of the maps. Their
/// events are not kept, so the memory depends on the processes and objects that they name, and not
/// on their number.
#[derive(Drop)]
pub struct LongReader {
    seen: Seen,
    maps: u32,
}

impl LongReader {
    /// No maps yet.
    pub fn new(alloc: Global) -> LongReader
        ensures { AreReadAtAnyLength result [] }
    {
        LongReader {
            seen: Seen::new(alloc),
            maps: 0,
        }
    }

    /// Adds one more map, and returns its event, if it is a client's. The events that are given
    /// are in turn those of the maps, each with the place of its map as its number. There may be
    /// 4,294,967,295 maps, and one more is TooMany. After an allocation failure nothing is known of
    /// the reader, and after any other fault it is as it was.
    pub fn take(&mut self, said: OperationMap) -> Result<Option<Event>, HistoryFault>
        ensures read { IfOk result (λ e. (ds : List Datum) (d : Datum) → Says said d →
            AreReadAtAnyLength self.old ds → AreReadAtAnyLength self.new (ds ++ d ∷ [])) }
        ensures event { IfOk result (λ e. (ds : List Datum) (d : Datum) → Says said d →
            AreReadAtAnyLength self.old ds →
            events_of_forms 0 (ds ++ d ∷ []) ≡ events_of_forms 0 ds ++ option_to_list e) }
        // The first fault of the maps so far with this one.
        ensures fault { IfErr result (λ f. f.kind ≢ HistoryFaultKind.TooMany →
            f.kind ≢ HistoryFaultKind.NoMemory → (ds : List Datum) (d : Datum) → Says said d →
            AreReadAtAnyLength self.old ds →
            IsFirstFaultBy IsMapFault history_fault_number (ds ++ d ∷ []) f.map f.kind) }
        ensures too_many { IfErr result (λ f. f.kind ≡ HistoryFaultKind.TooMany →
            (ds : List Datum) (d : Datum) → Says said d → AreReadAtAnyLength self.old ds →
            length ds ≡ 4294967295) }
        // Nothing is wrong with a map that is one too many, or for which an allocation failed.
        ensures sound { IfErr result (λ f. IsOfPlace f.kind →
            (ds : List Datum) (d : Datum) → Says said d → AreReadAtAnyLength self.old ds →
            IsFaultlessAtAnyLength (ds ++ d ∷ [])) }
        ensures place { IfErr result (λ f. (ds : List Datum) → AreReadAtAnyLength self.old ds →
            length ds ≡ f.map) }
        ensures stays { IfErr result (λ f. f.kind ≢ HistoryFaultKind.NoMemory →
            (ds : List Datum) → AreReadAtAnyLength self.old ds → AreReadAtAnyLength self.new ds) }
    {
        let number = self.maps;
        let map = number as usize;
        let fitting = match self.seen.check(said) {
            Ok(fitting) => fitting,
            Err(kind) => return Err(HistoryFault { kind, map }),
        };
        if number == u32::MAX {
            let kind = HistoryFaultKind::TooMany;
            return Err(HistoryFault { kind, map });
        }
        let Some(fitting) = fitting else {
            self.maps = number + 1;
            return Ok(None);
        };
        let Ok(event) = self.seen.note(number, fitting) else {
            let kind = HistoryFaultKind::NoMemory;
            return Err(HistoryFault { kind, map });
        };
        self.maps = number + 1;
        Ok(Some(event))
    }
}
