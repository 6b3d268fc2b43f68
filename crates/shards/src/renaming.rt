//! A map of a client with another number of its object, as the text of a shard has it.

ghost use Rattle.std.specs.Prelude.{◌≡◌, [], ◌∷◌, Some, true, IfOk};
ghost use Rattle.edn_reader.specs.Datum.{Datum};
ghost use Rattle.edn_reader.specs.Spells.{Spells};
ghost use Rattle.history.specs.Maps.{client_of};
ghost use Rattle.history.specs.Views.{IsClient};
ghost use Rattle.shards.specs.ShardTexts.{SaysRenamed};

use edn::{Piece, after, after_gap, push_natural};
use history::{ClientMap, OperationMap, maps_of};
use std::alloc::{AllocError, Global};

// ---- where the number is

/// The token that is next in the text, and what follows it.
fn next_token(text: &[u8]) -> Option<(Piece, &[u8])> {
    let token = after_gap(text);
    if token.is_empty() {
        return None;
    }
    Piece::first(token).ok()
}

/// After the element that the text begins with, which may be a vector or a map.
fn after_element(text: &[u8]) -> Option<&[u8]> {
    let mut rest = text;
    let mut depth: usize = 0;
    for _ in 0..text.len() {
        let (token, later) = next_token(rest)?;
        rest = later;
        depth = match token {
            Piece::OpenMap | Piece::OpenVector => depth.saturating_add(1),
            Piece::CloseMap | Piece::CloseVector => depth.saturating_sub(1),
            _ => depth,
        };
        if depth == 0 {
            break;
        }
    }
    Some(rest)
}

/// What is before the rest of a text.
fn before<'a>(text: &'a [u8], rest: &[u8]) -> Option<&'a [u8]> {
    text.get(..text.len().checked_sub(rest.len())?)
}

fn is_object(key: &Piece) -> bool {
    matches!(key, Piece::Keyword(name) if *name == "object")
}

/// What a map has before the value of its key `:object`, and after it.
fn around_object(text: &[u8]) -> Option<(&[u8], &[u8])> {
    let mut rest = after(text, b"{")?;
    for _ in 0..text.len() {
        let (key, later) = next_token(rest)?;
        let value = after_gap(later);
        rest = after_element(value)?;
        if is_object(&key) {
            return Some((before(text, value)?, rest));
        }
    }
    None
}

// ---- the map with another number

fn are_same(a: &ClientMap, b: &ClientMap) -> bool
    ensures { result ≡ true → a.now ≡ b.now }
{
    if a.process != b.process || a.object != b.object {
        return false;
    }
    if a.map_type != b.map_type {
        return false;
    }
    if a.function != b.function {
        return false;
    }
    a.value == b.value
}

/// Whether the text spells one map, which says this.
fn spells_map(alloc: Global, text: &[u8], map: &ClientMap) -> bool
    ensures { result ≡ true
        → (e : Datum) × Spells (e ∷ []) text.now × IsClient (Some map.now) (client_of e) }
{
    let Ok(maps) = maps_of(alloc, text) else {
        return false;
    };
    let [only] = maps.as_slice() else {
        return false;
    };
    match only.said {
        OperationMap::OfClient(said) => are_same(&said, map),
        OperationMap::Ignored | OperationMap::Neither => false,
    }
}

/// The map of a client, which is written so, with this number of its object. What is written anew
/// is read again, so that nothing has to be known of where the number was. If the number is not
/// found, or what is written says something else, this returns `AllocError`; that it never does so
/// is tested.
pub(crate) fn renamed_map(
    alloc: Global,
    map: &ClientMap,
    text: &[u8],
    name: u16,
) -> Result<Vec<u8>, AllocError>
    ensures { IfOk result (λ v. (d : Datum) → IsClient (Some map.now) (client_of d)
        → Spells (d ∷ []) text.now
        → (e : Datum) × SaysRenamed (λ x. name) d e × Spells (e ∷ []) v.items) }
{
    let Some((front, back)) = around_object(text) else {
        return Err(AllocError);
    };
    let mut own = Vec::with_capacity(alloc, text.len())?;
    own.extend_from_slice(front)?;
    push_natural(&mut own, u64::from(name))?;
    own.extend_from_slice(back)?;
    let renamed = ClientMap {
        object: u32::from(name),
        ..*map
    };
    if !spells_map(alloc, &own, &renamed) {
        return Err(AllocError);
    }
    Ok(own)
}
