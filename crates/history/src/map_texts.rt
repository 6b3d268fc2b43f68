//! The maps of a piece of a history's text, each with its own bytes.

ghost use Rattle.std.specs.Prelude.{◌≡◌, ◌≢◌, IfOk, IfErr};
ghost use Rattle.edn_reader.specs.Sound.{IsShort, IsUnreadable};
ghost use Rattle.history.specs.MapTexts.{AreMapsOf, IsSoundUpTo};

use crate::client_map::OperationMap;
use crate::map_reader::MapReader;
use edn::{EdnFault, FaultKind};
use std::alloc::Global;

/// A map of a text: what it says, and bytes that spell it and nothing else.
#[derive(Clone, Copy)]
pub struct MapText<'a> {
    pub said: OperationMap,
    pub text: &'a [u8],
}

/// Reads the maps that a piece of a history's text spells, in order. The bytes of each spell it
/// alone. A form that is not an operation map is among them, and says so.
pub fn maps_of<'a>(alloc: Global, piece: &'a [u8]) -> Result<Vec<MapText<'a>>, EdnFault>
    ensures maps { IfOk result (λ v. AreMapsOf piece.entry.now v.items) }
    ensures unreadable { IfErr result (λ e. e.kind ≢ FaultKind.NoMemory
        → IsUnreadable piece.entry.now e) }
    ensures memory { IfErr result (λ e. e.kind ≡ FaultKind.NoMemory
        → IsShort piece.entry.now × IsSoundUpTo e.place piece.entry.now) }
{
    let mut maps = match MapReader::new(alloc, piece) {
        Ok(maps) => maps,
        Err(fault) => return Err(fault),
    };
    let mut texts = Vec::new(alloc);
    'forms: loop {
        let before = maps.rest().as_bytes();
        match maps.advance() {
            Ok(Some(said)) => {
                let left = maps.rest().len();
                let text = &before[..before.len() - left];
                if texts.push(MapText { said, text }).is_err() {
                    return Err(EdnFault {
                        kind: FaultKind::NoMemory,
                        place: piece.len() - left,
                    });
                }
            }
            Ok(None) => return Ok(texts),
            Err(fault) => return Err(fault),
        }
    }
}
