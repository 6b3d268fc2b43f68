//! What is between tokens, and how far a word goes.

ghost use Rattle.std.specs.Prelude.{◌≡◌, ◌≤◌, length};
ghost use Rattle.edn_reader.specs.Reading as spec;

use crate::bytes::{is_separator, is_token_byte};

/// After the line feed of a comment.
fn after_comment(text: &[u8]) -> &[u8]
    ensures skip { spec.skip result.now ≡ spec.skip_comment text.now }
    ensures within { length result.now ≤ length text.now }
{
    let mut rest = text;
    'bytes: while let [b, tail @ ..] = rest {
        if *b == b'\n' {
            return tail;
        }
        rest = tail;
    }
    rest
}

/// What follows the separators and comments at the front of a text.
#[inline]
pub fn skip(text: &[u8]) -> &[u8]
    ensures { result.now ≡ spec.skip text.now }
{
    let mut rest = text;
    'bytes: while let [b, tail @ ..] = rest {
        if is_separator(*b) {
            rest = tail;
        } else if *b == b';' {
            rest = after_comment(tail);
        } else {
            return rest;
        }
    }
    rest
}

/// After the bytes of a token.
fn after_word(text: &[u8]) -> &[u8]
    ensures { result.now ≡ spec.after_word text.now }
{
    let mut rest = text;
    'bytes: while let [b, tail @ ..] = rest {
        if !is_token_byte(*b) {
            return rest;
        }
        rest = tail;
    }
    rest
}

/// A word, and what follows it.
#[tactic(auto, using(crate::proofs::Words::word_is_front, crate::proofs::Words::after_word_within))]
pub(crate) fn split_word(text: &[u8]) -> (&[u8], &[u8])
    ensures word { result.0.now ≡ spec.word text.now }
    ensures rest { result.1.now ≡ spec.after_word text.now }
{
    let rest = after_word(text);
    let word = &text[..text.len() - rest.len()];
    (word, rest)
}
