//! Tokens from the front of a text, which stay where they are in it.

ghost use Rattle.std.specs.Prelude.{◌≡◌, ◌≢◌, ◌<◌, ◌^◌, length, true, Some, None, IfOk, IfErr};
ghost use Rattle.std.specs.Prelude.{IfSome};
ghost use Rattle.edn_reader.specs.Spells.{EndsToken, value_after};
ghost use Rattle.edn_reader.specs.Reading as spec;
ghost use Rattle.edn_reader.specs.Reading.{string_end};

use crate::bytes::{is_digit, is_letter, is_name, is_name_byte, is_token_byte};
use crate::fault::{Cause, Stop};
use crate::lexer::split_word;
use crate::string::escape_of;
use crate::word::{fault_of, integer as integer_of};

/// A bracket, or an element of one token. A string is what is between its quotes, with
/// the escapes as they are written.
#[derive(Clone, Copy, Debug)]
pub enum Piece<'a> {
    OpenVector,
    CloseVector,
    OpenMap,
    CloseMap,
    Nil,
    True,
    False,
    Int(i64),
    Str(&'a [u8]),
    Keyword(&'a str),
}

/// What follows the quote that ends a string, after its first quote.
#[tactic(auto, using(crate::proofs::Raw::end_after_byte, crate::proofs::Raw::end_after_escape, crate::proofs::Raw::no_end_after))]
fn after_string(text: &[u8]) -> Result<&[u8], Stop>
    ensures ends { IfOk result (λ rest. string_end text.now ≡ Some rest.now) }
    ensures none { IfErr result (λ e. (string_end text.now ≡ None) × (e.cause ≢ Cause.NoMemory)) }
{
    let mut rest = text;
    'bytes: while let [b, tail @ ..] = rest {
        if *b == b'"' {
            return Ok(tail);
        }
        if *b == b'\\' {
            let [c, more @ ..] = tail else {
                return Err(Stop::at_end());
            };
            if escape_of(*c).is_none() {
                return Err(Stop::at(Cause::BadToken, rest));
            }
            rest = more;
        } else {
            rest = tail;
        }
    }
    Err(Stop::at_end())
}

/// After the bytes of a name.
#[inline(always)]
fn after_name(text: &[u8]) -> &[u8]
    ensures { result.now ≡ spec.after_names text.now }
{
    let mut rest = text;
    'bytes: while let [b, tail @ ..] = rest {
        if !is_name_byte(*b) {
            return rest;
        }
        rest = tail;
    }
    rest
}

/// Whether a word ends here.
#[inline(always)]
fn ends_token(rest: &[u8]) -> bool
    ensures { result ≡ true → EndsToken rest.now }
{
    match rest {
        [] => true,
        [b, ..] => !is_token_byte(*b),
    }
}

/// The number that the digits at the front make, and what follows them; or none, if it may have
/// more than 63 bits.
#[inline(always)]
fn number_at(text: &[u8]) -> Option<(u64, &[u8])>
    ensures value { IfSome result (λ x. x.0 ≡ value_after 0 (spec.digits text.now)) }
    ensures rest { IfSome result (λ x. x.1.now ≡ spec.after_digits text.now) }
    ensures below { IfSome result (λ x. x.0 < 2 ^ 63) }
{
    let mut value: u64 = 0;
    let mut rest = text;
    'digits: while let [b, tail @ ..] = rest {
        if !is_digit(*b) {
            return Some((value, rest));
        }
        if value > 99_999_999_999_999_999 {
            return None;
        }
        value = value * 10 + u64::from(*b - b'0');
        rest = tail;
    }
    Some((value, rest))
}

impl<'a> Piece<'a> {
    ghost use Rattle.std.specs.Prelude.{◌∷◌};
    ghost use Rattle.edn_reader.specs.Datum.{integer, keyword, atom};
    ghost use Rattle.edn_reader.specs.Token.{leaf};
    ghost use Rattle.edn_reader.specs.Pieces.{GivesPiece, IsWordPiece};

    /// A string after its first quote, and what follows it.
    #[tactic(auto, using(crate::proofs::Raw::end_shorter, crate::proofs::Raw::got_raw))]
    fn of_string(text: &'a [u8]) -> Result<(Piece<'a>, &'a [u8]), Stop>
        ensures { GivesPiece result (spec.got_string (spec.string_at text.entry.now)) }
    {
        let rest = after_string(text)?;
        let raw = &text[..text.len() - rest.len() - 1];
        Ok((Piece::Str(raw), rest))
    }

    #[tactic(auto, using(crate::proofs::Names::name_utf8), unfolding(crate::specs::Reading::keyword_of))]
    fn of_name(name: &'a [u8]) -> Result<Piece<'a>, Cause>
        ensures { IsWordPiece result (spec.keyword_of name.entry.now) }
    {
        if !is_name(name) {
            return Err(Cause::BadToken);
        }
        // A name is ASCII, so its bytes are text as they are.
        let name = unsafe { std::str::from_utf8_unchecked(name) };
        Ok(Piece::Keyword(name))
    }

    #[tactic(auto, unfolding(crate::specs::Reading::literal_of))]
    fn literal(word: &'a [u8]) -> Result<Piece<'a>, Cause>
        ensures { IsWordPiece result (spec.literal_of word.entry.now) }
    {
        if word == b"nil".as_slice() {
            return Ok(Piece::Nil);
        }
        if word == b"true".as_slice() {
            return Ok(Piece::True);
        }
        if word == b"false".as_slice() {
            return Ok(Piece::False);
        }
        match integer_of(word) {
            Some(number) => Ok(Piece::Int(number)),
            None => Err(fault_of(word)),
        }
    }

    /// What a word stands for.
    #[tactic(auto, unfolding(crate::specs::Reading::atom_of))]
    fn of_word(word: &'a [u8]) -> Result<Piece<'a>, Cause>
        ensures { IsWordPiece result (spec.atom_of word.entry.now) }
    {
        match word {
            [] => Err(Cause::NotInProfile),
            [b':', name @ ..] => Piece::of_name(name),
            [_, ..] => Piece::literal(word),
        }
    }

    /// A keyword of the usual form, after its colon, and what follows it.
    #[inline(always)]
    #[tactic(auto, using(crate::proofs::ByteRuns::names_within))]
    pub fn usual_keyword(text: &'a [u8]) -> Option<(&'a str, &'a [u8])>
        ensures { IfSome result (λ x.
            spec.first (58 ∷ text.entry.now) ≡ spec.got (leaf (atom (keyword x.0.now))) x.1.now) }
    {
        let [b, tail @ ..] = text else {
            return None;
        };
        if !is_letter(*b) {
            return None;
        }
        let rest = after_name(tail);
        let length = tail.len() - rest.len();
        if length > 63 || !ends_token(rest) {
            return None;
        }
        // A name is ASCII, so its bytes are text as they are.
        let name = unsafe { std::str::from_utf8_unchecked(&text[..length + 1]) };
        Some((name, rest))
    }

    /// A number of the usual form, and what follows it.
    #[inline(always)]
    #[tactic(auto, using(crate::proofs::ByteRuns::integer_at))]
    pub fn usual_number(text: &'a [u8]) -> Option<(i64, &'a [u8])>
        ensures { IfSome result (λ x.
            spec.first text.entry.now ≡ spec.got (leaf (atom (integer x.0))) x.1.now) }
    {
        let [b, ..] = text else {
            return None;
        };
        if !is_digit(*b) || *b == b'0' {
            return None;
        }
        let (value, rest) = number_at(text)?;
        if !ends_token(rest) {
            return None;
        }
        Some((value as i64, rest))
    }

    /// A word at the front, and what follows it.
    fn word_at(text: &'a [u8]) -> Result<(Piece<'a>, &'a [u8]), Stop>
        ensures { GivesPiece result
            (spec.got_word (spec.atom_of (spec.word text.entry.now))
            (spec.after_word text.entry.now)) }
    {
        let (word, rest) = split_word(text);
        match Piece::of_word(word) {
            Ok(piece) => Ok((piece, rest)),
            Err(cause) => Err(Stop::at(cause, text)),
        }
    }

    /// The token at the front, of which there is one, and what follows it.
    #[tactic(auto, unfolding(crate::specs::Reading::first))]
    pub fn first(text: &'a [u8]) -> Result<(Piece<'a>, &'a [u8]), Stop>
        requires { 0 < length text.now }
        ensures { GivesPiece result (spec.first text.entry.now) }
    {
        match text {
            [b'[', rest @ ..] => Ok((Piece::OpenVector, rest)),
            [b']', rest @ ..] => Ok((Piece::CloseVector, rest)),
            [b'{', rest @ ..] => Ok((Piece::OpenMap, rest)),
            [b'}', rest @ ..] => Ok((Piece::CloseMap, rest)),
            [b'"', rest @ ..] => Piece::of_string(rest),
            _ => Piece::word_at(text),
        }
    }
}
