//! The values that a map has for its keys, whose tokens are in a token buffer.

ghost use Rattle.std.specs.Prelude.{◌≡◌, ◌≤◌, length, option_map};
ghost use Rattle.edn_reader.specs.Pieces.{token_buffer_tokens};
ghost use Rattle.edn.specs.Values as spec;

use crate::Piece;

/// What follows the closing bracket of the vector or map that is open.
#[tactic(auto, using(crate::proofs::Skipping::after_open_vector, crate::proofs::Skipping::after_open_map, crate::proofs::Skipping::after_close_vector, crate::proofs::Skipping::after_close_map, crate::proofs::Skipping::after_leaf, crate::proofs::Skipping::after_none))]
fn after_open<'p, 'a>(pieces: &'p [Piece<'a>]) -> &'p [Piece<'a>]
    ensures tokens { token_buffer_tokens result.now
        ≡ spec.after_open 1 (token_buffer_tokens pieces.entry.now) }
    ensures within { length result.now ≤ length pieces.entry.now }
{
    let mut open: usize = 1;
    let mut rest = pieces;
    'pieces: while let [piece, tail @ ..] = rest {
        if open == 0 {
            return rest;
        }
        match piece {
            Piece::OpenVector => open += 1,
            Piece::OpenMap => open += 1,
            Piece::CloseVector => open -= 1,
            Piece::CloseMap => open -= 1,
            _ => {}
        }
        rest = tail;
    }
    rest
}

/// What follows the element at the front.
#[inline]
pub(crate) fn after_value<'p, 'a>(pieces: &'p [Piece<'a>]) -> &'p [Piece<'a>]
    ensures tokens { token_buffer_tokens result.now
        ≡ spec.after_one (token_buffer_tokens pieces.entry.now) }
    ensures within { length result.now ≤ length pieces.entry.now }
{
    let [first, tail @ ..] = pieces else {
        return pieces;
    };
    match first {
        Piece::OpenVector => after_open(tail),
        Piece::OpenMap => after_open(tail),
        _ => tail,
    }
}

/// The number, if it is not negative.
pub fn natural_first(value: &[Piece]) -> Option<u64>
    ensures { result ≡ spec.natural_first (token_buffer_tokens value.now) }
{
    let [first, ..] = value else {
        return None;
    };
    match first {
        Piece::Int(n) if *n >= 0 => Some(*n as u64),
        _ => None,
    }
}

/// The keyword without its colon.
pub fn keyword_first<'a>(value: &[Piece<'a>]) -> Option<&'a str>
    ensures { option_map (λ k. k.now) result
        ≡ spec.keyword_first (token_buffer_tokens value.entry.now) }
{
    let [first, ..] = value else {
        return None;
    };
    match first {
        Piece::Keyword(name) => Some(name),
        _ => None,
    }
}
