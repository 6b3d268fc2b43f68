//! The maps of a history of any length, divided among shards while they are read.

ghost use Rattle.std.specs.Prelude.{◌≡◌, ◌<◌, ◌++◌, ◌∷◌, [], ℕ, List, false, map, vec_len, Some};
ghost use Rattle.std.specs.Prelude.{true, IfOk, IfErr, OnOk, OnErr};
ghost use Rattle.edn_reader.specs.Datum.{Datum};
ghost use Rattle.edn_reader.specs.Spells.{Spells};
ghost use Rattle.history.specs.Maps.{client_of};
ghost use Rattle.history.specs.Views.{IsClient, Says};
ghost use Rattle.shards.specs.Dividing.{Files, shard_among};
ghost use Rattle.shards.specs.ShardTexts.{SpelledMap};

use crate::division::Division;
use crate::fault::PieceFault;
use crate::folder::Folder;
use crate::names::{fits, name_of, shard_of};
use crate::renaming::renamed_map;
use crate::tally::Tally;
use crate::waiting::{Waiting, waiting_of};
use edn::{Failed, after_gap};
use history::{
    ClientMap, HistoryFault, HistoryFaultKind, LongReader, OperationMap, TextFault, maps_of,
};
use std::alloc::{AllocError, Global};

/// What was read of a history, and what waits to be written of each shard.
#[derive(Drop)]
pub(crate) struct Divider {
    reader: LongReader,
    tally: Tally,
    shards: u16,
    waiting: Vec<Waiting>,
    ghost some: { 0 < shards },
    ghost each: { vec_len waiting ≡ shards },
}

impl Divider {
    ghost use Rattle.shards.specs.Taking.{AreMapsTaken, AreTakenOf, AreTakenAfter, AreTakenWith};
    ghost use Rattle.shards.specs.Taking.{AddsLine, AddsMap, IsMapFoundAmong, IsPieceFault};
    ghost use Rattle.shards.specs.Taking.{IsOfPiece, NoneWait, forms_of, no_lines};
    ghost use Rattle.shards.specs.LargeObjects.{AreLarge};
    ghost use Rattle.shards.specs.Tallies.{CountsOne, IsTally};

    /// No maps yet.
    pub fn new(alloc: Global, shards: u16) -> Result<Divider, AllocError>
        requires { 0 < shards }
        ensures { IfOk result (λ d. AreMapsTaken shards d [] no_lines) }
    {
        let waiting = waiting_of(alloc, shards)?;
        Ok(Divider {
            reader: LongReader::new(alloc),
            tally: Tally::new(alloc),
            shards,
            waiting,
        })
    }

    /// Queues a map on this object for the files of its shard, spelled as the shard has it, with
    /// its place.
    fn put_text(&mut self, object: u32, place: u32, text: &[u8]) -> Result<(), AllocError>
        ensures adds { OnOk result (AddsLine (shard_among self.old.shards object) text.now place
            self.old.waiting.items self.new.waiting.items) }
        ensures reader { self.new.reader ≡ self.old.reader }
        ensures tally { self.new.tally ≡ self.old.tally }
        ensures shards { self.new.shards ≡ self.old.shards }
    {
        let shard = shard_of(object, self.shards);
        self.waiting[usize::from(shard)].add(text, place)
    }

    /// Queues and counts the map of a client. If its object has another name in its shard, the map
    /// is rewritten.
    fn put(
        &mut self,
        alloc: Global,
        map: &ClientMap,
        place: u32,
        text: &[u8],
    ) -> Result<(), AllocError>
        ensures adds { OnOk result ((d : Datum) → IsClient (Some map.now) (client_of d)
            → Spells (d ∷ []) text.now → AddsMap self.old.shards d map.now.object place
            self.old.waiting.items self.new.waiting.items) }
        ensures reader { self.new.reader ≡ self.old.reader }
        ensures tally { OnOk result (CountsOne map.now.object self.old.tally self.new.tally) }
        ensures shards { self.new.shards ≡ self.old.shards }
    {
        self.tally.count(map.object)?;
        let name = name_of(map.object);
        if u32::from(name) == map.object {
            return self.put_text(map.object, place, text);
        }
        let own = renamed_map(alloc, map, text, name)?;
        self.put_text(map.object, place, &own)
    }

    /// Takes one more map: what it says, and its text.
    fn take_map(&mut self, alloc: Global, said: OperationMap, text: &[u8]) -> Result<(), PieceFault>
        ensures taken { OnOk result
            ((count : ℕ) (maps : List SpelledMap) (written : Files) (d : Datum) → Says said d
            → Spells (d ∷ []) text.now → AreMapsTaken count self.old maps written
            → AreTakenWith d count self.new maps written) }
        ensures fault { IfErr result (λ f. (count : ℕ) (maps : List SpelledMap) (written : Files)
            (d : Datum) → Says said d → AreMapsTaken count self.old maps written
            → IsMapFoundAmong count (forms_of maps ++ d ∷ []) f) }
        ensures of_map { IfErr result (λ f. IsOfPiece f → ⊥) }
    {
        let event = match self.reader.take(said) {
            Ok(Some(event)) => event,
            Ok(None) => return Ok(()),
            Err(fault) => return Err(PieceFault::Malformed(TextFault::Maps(fault))),
        };
        // Only the map of a client has an event.
        let OperationMap::OfClient(map) = said else {
            return Ok(());
        };
        if !fits(map.object, self.shards) {
            return Err(PieceFault::TooFewShards(map.object));
        }
        match self.put(alloc, &map, event.number, text) {
            Ok(()) => Ok(()),
            Err(_) => Err(PieceFault::Malformed(TextFault::Maps(HistoryFault {
                kind: HistoryFaultKind::NoMemory,
                map: event.number as usize,
            }))),
        }
    }

    /// Takes in the maps that one more piece of the text spells. If the text of the piece has a
    /// fault, nothing is taken, so a longer piece may be tried; after any other fault nothing is
    /// known of what was taken.
    pub fn take(&mut self, alloc: Global, piece: &[u8]) -> Result<(), PieceFault>
        ensures taken { OnOk result
            ((count : ℕ) (maps : List SpelledMap) (written : Files)
            → AreMapsTaken count self.old maps written
            → AreTakenOf piece.now count self.new maps written) }
        ensures fault { IfErr result (λ f. (count : ℕ) (maps : List SpelledMap) (written : Files)
            → AreMapsTaken count self.old maps written
            → IsPieceFault count (forms_of maps) piece.now f) }
        ensures unchanged { IfErr result (λ f. IsOfPiece f → self.new ≡ self.old) }
    {
        let maps = match maps_of(alloc, piece) {
            Ok(maps) => maps,
            Err(fault) => return Err(PieceFault::Malformed(TextFault::Text(fault))),
        };
        for map in &maps {
            match self.take_map(alloc, map.said, after_gap(map.text)) {
                Ok(()) => {}
                Err(fault) => return Err(fault),
            }
        }
        Ok(())
    }

    /// Writes out every shard whose waiting maps have at least this many bytes. After an error
    /// nothing is known about what waits.
    pub fn flush<D: Folder>(&mut self, folder: &mut D, least: usize) -> Result<(), Failed>
        requires { D.broken folder.old ≡ false }
        ensures taken { OnOk result
            ((count : ℕ) (maps : List SpelledMap) (written : Files)
            → AreMapsTaken count self.old maps written
            → AreTakenAfter count self.new maps written (D.files folder.old) (D.files folder.new)) }
        ensures usable { OnOk result (D.broken folder.new ≡ false) }
        ensures failed { OnErr result (D.broken folder.new ≡ true) }
        ensures none_wait { OnOk result (least ≡ 0 → NoneWait self.new.waiting.items) }
    {
        for shard in 0..self.shards {
            self.waiting[shard as usize].flush(folder, shard, least)?;
        }
        Ok(())
    }

    /// How many maps each shard has, and the objects with more than a text may have.
    pub fn division(&self, alloc: Global) -> Result<Division, AllocError>
        ensures counts { IfOk result (λ d.
            d.counts.items ≡ map (λ w. w.count) self.now.waiting.items) }
        ensures large { IfOk result (λ d. (counts : ℕ → ℕ) → IsTally self.now.tally counts
            → AreLarge counts d.large.items) }
    {
        let counts = self
            .waiting
            .iter()
            .map(|waiting| waiting.count)
            .collect(alloc)?;
        let large = self.tally.large(alloc)?;
        Ok(Division { counts, large })
    }
}
