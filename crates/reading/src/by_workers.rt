//! A history's text that is read by several workers, each a piece of it.

ghost use Rattle.std.specs.Prelude.{◌<◌, [], length, map, get_or, IfSome};
ghost use Rattle.edn_reader.specs.Sound.{IsShort};
ghost use Rattle.history.specs.Pieces.{IsReadFrom};
ghost use Rattle.reading.specs.Texts.{DenotesHistory, IsHistoryRead};

use crate::history_text::history_of_text;
use crate::text_failure::TextFailure;
use edn::MAX_LENGTH;
use history::{History, ReadPiece, join_pieces, pieces_of, read_piece};
use std::alloc::Global;
use std::thread::{Threads, map_indices};

/// The most workers of one judgement.
pub const MAX_WORKERS: u32 = 16;

/// A text that is shorter is not read in pieces.
const LEAST_LENGTH: usize = 1_000_000;

/// Reads the history that the text denotes, in pieces by this many workers. Returns None, which
/// means nothing about the text, if there is one worker, the text is too short or too long, maps
/// share lines, a map has a fault, or an allocation fails.
fn history_in_pieces<R: Threads + Sync>(
    rt: &R,
    alloc: Global,
    text: &[u8],
    workers: u32,
) -> Option<History>
    ensures denotes { IfSome result (DenotesHistory text.now) }
    ensures short { IfSome result (λ _. IsShort text.now) }
{
    if workers < 2 || text.len() < LEAST_LENGTH || text.len() > MAX_LENGTH {
        return None;
    }
    let pieces = pieces_of(alloc, text, workers.min(MAX_WORKERS) as usize)?;
    let pieces = pieces.as_slice();
    let reads = map_indices(
        rt,
        alloc,
        pieces.len(),
        &|k: usize| -> Option<ReadPiece>
            requires { k < length pieces.now }
            ensures { IfSome result (IsReadFrom (get_or (map (λ p. p.now) pieces.entry.now) k [])) }
        { read_piece(alloc, pieces[k]) },
    );
    let Ok(reads) = reads else {
        return None;
    };
    join_pieces(alloc, reads)
}

/// Returns the history that a text denotes, or the first fault of the text, as `history_of_text`
/// does. A text of 1 MB or more whose maps are in lines of their own is read by `workers` threads,
/// at most 16, each a piece of it. With 0 or 1 it starts no thread.
pub fn history_of_text_by_workers<R: Threads + Sync>(
    rt: &R,
    alloc: Global,
    text: &[u8],
    workers: u32,
) -> Result<History, TextFailure>
    ensures { IsHistoryRead text.now result }
{
    match history_in_pieces(rt, alloc, text, workers) {
        Some(history) => Ok(history),
        None => history_of_text(alloc, text),
    }
}
