//! A history's text in pieces, of which each can be read by a worker of its own.

ghost use Rattle.std.specs.Prelude.{◌≡◌, ◌<◌, ◌++◌, ◌∷◌, ℕ, List, length, map, get_or, IfSome};
ghost use Rattle.edn_reader.specs.Datum.{Datum};
ghost use Rattle.edn_reader.specs.Spells.{Spells};
ghost use Rattle.history.specs.Denotes.{Denotes};
ghost use Rattle.history.specs.Pieces.{joined_by_feeds, IsReadFrom, AreReadFrom};

use crate::piece::ReadPiece;
use crate::seams::Seams;
use events::History;
use std::alloc::Global;

/// How far a text is read at first, to see whether its lines can be read by themselves.
const TRIAL_LENGTH: usize = 65_536;

/// The place of the first line feed from this place on.
fn feed_from(text: &[u8], from: usize) -> Option<usize>
    ensures { IfSome result (λ k. (k < length text.now) × (get_or text.now k 0 ≡ 10)) }
{
    let mut place = from;
    while place < text.len() {
        if text[place] == b'\n' {
            return Some(place);
        }
        place += 1;
    }
    None
}

/// What is before the first line feed from this place on, and what is after it.
fn cut_at_feed(text: &[u8], from: usize) -> Option<(&[u8], &[u8])>
    ensures { IfSome result (λ x. text.entry.now ≡ x.0.now ++ 10 ∷ x.1.now) }
{
    let feed = feed_from(text, from)?;
    Some((&text[..feed], &text[feed + 1..]))
}

/// Reads a piece of a history's text by itself. `None` is no verdict on the text: a line is
/// unusual, or an allocation failed.
pub fn read_piece(alloc: Global, piece: &[u8]) -> Option<ReadPiece>
    ensures { IfSome result (IsReadFrom piece.now) }
{
    let mut read = ReadPiece::new(alloc);
    read.read_lines(alloc, piece)?;
    Some(read)
}

/// Whether the text's first lines can be read by themselves. Maps that are printed on several lines
/// cannot. No answer depends on it, only time does.
fn begins_in_lines(alloc: Global, text: &[u8]) -> bool {
    match cut_at_feed(text, TRIAL_LENGTH) {
        Some((lines, _)) => read_piece(alloc, lines).is_some(),
        None => false,
    }
}

/// Cuts the text into pieces, with a line feed between each two. They are this many and of nearly
/// one length, but no answer depends on that. None means nothing about the text: its first lines
/// cannot be read by themselves, its lines are too few or too long, or an allocation failed.
pub fn pieces_of(alloc: Global, text: &[u8], count: usize) -> Option<Vec<&[u8]>>
    ensures { IfSome result (λ v. joined_by_feeds (map (λ p. p.now) v.items) ≡ text.entry.now) }
{
    if !begins_in_lines(alloc, text) {
        return None;
    }
    let mut pieces = Vec::new(alloc);
    let mut rest = text;
    for more in (1..count).rev() {
        let (piece, later) = cut_at_feed(rest, rest.len() / (more + 1))?;
        pieces.push(piece).ok()?;
        rest = later;
    }
    pieces.push(rest).ok()?;
    Some(pieces)
}

/// Joins pieces of a text into its history. Returns None, which means nothing about the text, if a
/// piece was not read, a map has a fault after those of the pieces before, the maps are too many,
/// or an allocation fails.
pub fn join_pieces(alloc: Global, reads: Vec<Option<ReadPiece>>) -> Option<History>
    requires { (pieces : List (List ℕ)) × AreReadFrom pieces reads.items }
    ensures { IfSome result (λ h. (pieces : List (List ℕ)) → AreReadFrom pieces reads.items →
        (ds : List Datum) × Spells ds (joined_by_feeds pieces) × Denotes ds h) }
{
    let mut seams = Seams::new(alloc);
    for read in reads {
        seams = seams.add(read?)?;
    }
    Some(seams.into_history())
}
