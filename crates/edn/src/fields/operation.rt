//! The values of an operation map, whose tokens are in a token buffer.

ghost use Rattle.std.specs.Prelude.{◌≡◌, ◌++◌, ◌∷◌, [], ℕ, List, IfSome, IfNone, MatchOption};
ghost use Rattle.edn_reader.specs.Datum.{Datum, Entries, keyword, atom, dictionary, entries_of};
ghost use Rattle.edn_reader.specs.Token.{Token, tokens_of, entries_tokens, leaf, open_map};
ghost use Rattle.edn_reader.specs.Token.{close_map};
ghost use Rattle.edn_reader.specs.Pieces.{token_buffer_tokens};
ghost use Rattle.edn.specs.Fields.{value_at};
ghost use Rattle.edn.specs.Values.{IsValue};
ghost use Rattle.edn.specs.Operations.{HasValues, IsMapWith, NoMap, NoPair};

use super::same_bytes;
use super::values::after_value;
use crate::Piece;

/// The token buffer from each value on, which is empty if the map has no such key.
#[derive(Clone, Copy)]
pub struct OperationValues<'p, 'a> {
    pub process: &'p [Piece<'a>],
    pub map_type: &'p [Piece<'a>],
    pub function: &'p [Piece<'a>],
    pub object: &'p [Piece<'a>],
    pub value: &'p [Piece<'a>],
}

/// The value that was found for the key, or this one, if it is the key's.
#[inline]
fn first_of<'p, 'a>(
    found: &'p [Piece<'a>],
    key: &[u8],
    name: &[u8],
    value: &'p [Piece<'a>],
) -> &'p [Piece<'a>]
    ensures { (before : List (List ℕ × Datum)) (d : Datum) (ts : List Token)
        → IsValue found.entry.now (value_at key.now (entries_of before))
        → token_buffer_tokens value.entry.now ≡ tokens_of d ++ ts
        → IsValue result.now (value_at key.now (entries_of (before ++ (name.now, d) ∷ []))) }
{
    if !found.is_empty() {
        return found;
    }
    if same_bytes(key, name) {
        return value;
    }
    found
}

impl<'p, 'a> OperationValues<'p, 'a> {
    /// No values. The token buffer is any.
    fn none(pieces: &'p [Piece<'a>]) -> OperationValues<'p, 'a>
        ensures { HasValues result (entries_of []) }
    {
        let empty = &pieces[..0];
        OperationValues {
            process: empty,
            map_type: empty,
            function: empty,
            object: empty,
            value: empty,
        }
    }

    /// With one pair more.
    #[inline]
    fn with(self, name: &[u8], value: &'p [Piece<'a>]) -> OperationValues<'p, 'a>
        ensures { (before : List (List ℕ × Datum)) (d : Datum) (ts : List Token)
            → HasValues self.entry (entries_of before)
            → token_buffer_tokens value.entry.now ≡ tokens_of d ++ ts
            → HasValues result (entries_of (before ++ (name.now, d) ∷ [])) }
    {
        OperationValues {
            process: first_of(self.process, b"process", name, value),
            map_type: first_of(self.map_type, b"type", name, value),
            function: first_of(self.function, b"f", name, value),
            object: first_of(self.object, b"object", name, value),
            value: first_of(self.value, b"value", name, value),
        }
    }
}

/// The token buffer after the bracket that opens a map.
#[inline]
fn after_bracket<'p, 'a>(pieces: &'p [Piece<'a>]) -> Option<&'p [Piece<'a>]>
    ensures { MatchOption result (NoMap (token_buffer_tokens pieces.entry.now))
        (λ inside. token_buffer_tokens pieces.entry.now ≡ open_map ∷ token_buffer_tokens
        inside.now) }
{
    match pieces {
        [Piece::OpenMap, inside @ ..] => Some(inside),
        _ => None,
    }
}

/// The key at the front, and the token buffer after it.
#[inline]
fn pair_at<'p, 'a>(pieces: &'p [Piece<'a>]) -> Option<(&'a str, &'p [Piece<'a>])>
    ensures { MatchOption result (NoPair (token_buffer_tokens pieces.entry.now))
        (λ x. token_buffer_tokens pieces.entry.now ≡ leaf (atom (keyword x.0.now))
        ∷ token_buffer_tokens x.1.now) }
{
    match pieces {
        [Piece::Keyword(name), tail @ ..] => Some((name, tail)),
        _ => None,
    }
}

/// The values in a map, after its bracket.
fn values_in<'p, 'a>(inside: &'p [Piece<'a>]) -> OperationValues<'p, 'a>
    ensures { (es : Entries)
        → token_buffer_tokens inside.entry.now ≡ entries_tokens es ++ close_map ∷ [] →
        HasValues result es }
{
    let mut values = OperationValues::none(inside);
    let mut rest = inside;
    'pairs: while let Some((name, value)) = pair_at(rest) {
        values = values.with(name.as_bytes(), value);
        rest = after_value(value);
    }
    values
}

/// The values of the map whose tokens these are, if it is a map.
pub fn values_of<'p, 'a>(pieces: &'p [Piece<'a>]) -> Option<OperationValues<'p, 'a>>
    ensures map { IfSome result (λ v. (d : Datum)
        → token_buffer_tokens pieces.entry.now ≡ tokens_of d →
        IsMapWith v d) }
    ensures other { IfNone result ((es : Entries) →
        token_buffer_tokens pieces.entry.now ≡ tokens_of (dictionary es) →
        ⊥) }
{
    match after_bracket(pieces) {
        Some(inside) => Some(values_in(inside)),
        None => None,
    }
}
