//! The maps of a text, one by one.

ghost use Rattle.std.specs.Prelude.{◌≡◌, ◌≢◌, ◌+◌, ◌<◌, true, List, length, IfOk, IfErr, IsSome};
ghost use Rattle.std.specs.Str.{IsUtf8};
ghost use Rattle.edn_reader.specs.Datum.{Datum};
ghost use Rattle.edn_reader.specs.Left.{is_truncating};
ghost use Rattle.edn_reader.specs.Sound.{IsShort, IsUnreadable, IsSoundFrom};
ghost use Rattle.edn_reader.specs.Spells.{Spells};

use crate::attempts::Attempts;
use crate::client_map::{OperationMap, said_on};
use crate::usual_map::usual_map;
use edn::{EdnFault, Elements, FaultKind};
use std::alloc::Global;

/// The rest of a text in which each form is to be one operation map. The reader of maps tries the
/// usual reader first, and if that finds no map, it reads the form token by token. Of each value it
/// keeps only what can be an argument or a reply.
#[derive(Drop)]
pub(crate) struct MapReader<'a> {
    elements: Elements<'a>,
    attempts: Attempts,
    ghost truncates: { is_truncating elements ≡ true },
}

impl<'a> MapReader<'a> {
    ghost use Rattle.history.specs.MapReading.{left_in, start_of_map, ReadsNext};

    /// A text that is too long is not looked at; then comes whether it is UTF-8 as a whole. No
    /// memory is taken.
    pub fn new(alloc: Global, text: &'a [u8]) -> Result<MapReader<'a>, EdnFault>
        ensures text { IfOk result (λ r. (left_in r ≡ text.entry.now) × (start_of_map r ≡ 0)) }
        ensures short { IfOk result (λ r. IsShort text.entry.now × IsUtf8 text.entry.now) }
        ensures unreadable { IfErr result (IsUnreadable text.entry.now) }
    {
        match Elements::truncated(alloc, text) {
            Ok(elements) => Ok(MapReader {
                elements,
                attempts: Attempts::new(),
            }),
            Err(fault) => Err(fault),
        }
    }

    /// The rest of the text.
    #[inline(always)]
    pub fn rest(&self) -> &'a str
        ensures { result.now ≡ left_in self.now }
    {
        self.elements.rest()
    }

    /// What the next form says, or that there is none. After an error the rest stays as it was, and
    /// the next call returns the same, except for an allocation failure.
    #[inline(always)]
    pub fn advance(&mut self) -> Result<Option<OperationMap>, EdnFault>
        ensures reads { IfOk result (λ r. ReadsNext (left_in self.old) r (left_in self.new)) }
        ensures moves { start_of_map self.new + length (left_in self.new)
            ≡ start_of_map self.old + length (left_in self.old) }
        ensures shorter { IfOk result (λ r. IsSome r →
            length (left_in self.new) < length (left_in self.old)) }
        ensures same { IfErr result (λ _. left_in self.new ≡ left_in self.old) }
        ensures none { IfErr result (λ e. e.kind ≢ FaultKind.NoMemory
            → (ds : List Datum) → Spells ds (left_in self.old) → ⊥) }
        // An allocation failed, and nothing was wrong yet.
        ensures memory { IfErr result (λ e. e.kind ≡ FaultKind.NoMemory
            → IsSoundFrom (start_of_map self.old) e.place (left_in self.old)) }
        ensures short { IfErr result (λ e. e.kind ≢ FaultKind.TooLong) }
    {
        let is_tried = self.attempts.is_due();
        if is_tried {
            if let Some((map, rest)) = usual_map(self.elements.rest().as_bytes()) {
                self.elements.pass(rest);
                self.attempts.succeed();
                return Ok(Some(OperationMap::OfClient(map)));
            }
        }
        self.attempts.miss(is_tried);
        match self.elements.advance() {
            Ok(true) => Ok(Some(said_on(self.elements.pieces()))),
            Ok(false) => Ok(None),
            Err(fault) => Err(fault),
        }
    }
}
