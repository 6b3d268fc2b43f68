//! What a text begins with, by patterns of bytes. What is written in another way than the usual one
//! is not found, though it may be well formed.

ghost use Rattle.std.specs.Prelude.{◌≡◌, ◌⊎◌, true, [], ◌∷◌, ◌++◌, pos, IfSome};
ghost use Rattle.edn_reader.specs.Datum.{integer, atom};
ghost use Rattle.edn_reader.specs.Sound.{BeginWith};
ghost use Rattle.edn_reader.specs.Spells.{EndsToken};
ghost use Rattle.edn_reader.specs.Token.{leaf};

use crate::piece::Piece;

/// What follows these bytes, if the text begins with them.
#[inline(always)]
pub fn after<'a, const N: usize>(text: &'a [u8], bytes: &[u8; N]) -> Option<&'a [u8]>
    ensures { IfSome result (λ rest. text.entry.now ≡ bytes.now ++ rest.now) }
{
    let (front, rest) = text.split_first_chunk::<N>()?;
    if front == bytes { Some(rest) } else { None }
}

/// The text without the line feed that it begins with, if it begins with one.
#[inline(always)]
pub fn after_line_feed(text: &[u8]) -> &[u8]
    ensures { (text.entry.now ≡ result.now) ⊎ (text.entry.now ≡ 10 ∷ result.now) }
{
    match text {
        [b'\n', rest @ ..] => rest,
        _ => text,
    }
}

/// Whether a word ends here, by the bytes that usually follow one.
#[inline(always)]
#[tactic(auto, unfolding(crate::specs::Bytes::is_token_byte))]
pub fn ends_word(rest: &[u8]) -> bool
    ensures { result ≡ true → EndsToken rest.now }
{
    matches!(rest, [b',' | b'}' | b' ' | b']' | b'\n', ..])
}

/// A number that is written without a sign, as an `i64`, and what follows it.
#[inline(always)]
pub fn integer_at(text: &[u8]) -> Option<(i64, &[u8])>
    ensures { IfSome result (λ x.
        BeginWith (leaf (atom (integer x.0)) ∷ []) text.entry.now x.1.now) }
{
    match text {
        [b'0', rest @ ..] => {
            if ends_word(rest) {
                Some((0, rest))
            } else {
                None
            }
        }
        _ => Piece::usual_number(text),
    }
}

/// The same, as a `u64`: without a sign it is not negative.
#[inline(always)]
pub fn natural_at(text: &[u8]) -> Option<(u64, &[u8])>
    ensures { IfSome result (λ x.
        BeginWith (leaf (atom (integer (pos x.0))) ∷ []) text.entry.now x.1.now) }
{
    let (number, rest) = integer_at(text)?;
    // Never so: the text has no sign. This is for the contract alone.
    if number < 0 {
        return None;
    }
    Some((number as u64, rest))
}
