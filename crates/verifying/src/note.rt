//! The sentence that goes with a reason.

ghost use Rattle.std.specs.Prelude.{◌≡◌, IfOk, Option, Some, None, option_map, string_bytes};
ghost use Rattle.std.specs.List.{list_all};
ghost use Rattle.edn_reader.specs.View.{view};
ghost use Rattle.verifying.specs.Denotes as spec;
ghost use Rattle.verifying.specs.Denotes.{is_printed};

use edn::Form;
use seq_objects::{Kinds, kinds_named};
use std::alloc::{AllocError, Global};

/// Whether a byte is a character of ASCII, and no control character.
fn is_printed(byte: u8) -> bool
    ensures { result ≡ is_printed byte }
{
    byte >= 32 && byte < 127
}

fn are_printed(bytes: &[u8]) -> bool
    ensures { result ≡ list_all (λ b. is_printed b) bytes.now }
{
    bytes.iter().all(|byte| is_printed(*byte))
}

/// Whether a text begins as a line of an answer does that is not the line of a kind, after the mark
/// of a comment or without one.
fn begins_like_a_line(bytes: &[u8]) -> bool
    ensures { result ≡ spec.begins_like_a_line bytes.now }
{
    begins_like_a_verdict(bytes)
        || bytes.starts_with(b"object ")
        || bytes.starts_with(b"shard ")
        || bytes.starts_with(b"event")
        || bytes.starts_with(b"{")
        || bytes.starts_with(b" ")
}

/// Whether a text begins as the line of a verdict does.
fn begins_like_a_verdict(bytes: &[u8]) -> bool
    ensures { result ≡ spec.begins_like_a_verdict bytes.now }
{
    bytes.starts_with(b"yes:")
        || bytes.starts_with(b"no:")
        || bytes.starts_with(b"malformed ")
        || bytes.starts_with(b"not linearizable")
        || bytes.starts_with(b"out of memory")
}

/// Whether a text begins as the line of a kind does, which follows the line of a yes.
fn begins_like_a_kind(text: &str) -> bool
    ensures { result ≡ spec.begins_like_a_kind text.now }
{
    match text.split_once(':') {
        Some((name, rest)) => {
            rest.as_bytes().starts_with(b" ")
                && matches!(kinds_named(name.as_bytes()), Some(Kinds::One(_)))
        }
        None => false,
    }
}

fn is_sentence(text: &str) -> bool
    ensures { result ≡ spec.is_sentence text.now }
{
    let bytes = text.as_bytes();
    are_printed(bytes) && !begins_like_a_line(bytes) && !begins_like_a_kind(text)
}

/// The sentence, if the value is a string of printed characters that cannot be taken for a line
/// that is proved.
pub(crate) fn note(alloc: Global, value: Option<&Form>) -> Result<Option<Vec<u8>>, AllocError>
    ensures { IfOk result (λ o. option_map (λ v. v.items) o
        ≡ spec.note_in (option_map (λ f. view f.now) value.entry)) }
{
    match value {
        Some(Form::Str(text)) if is_sentence(text) => {
            Ok(Some(Vec::from_slice(alloc, text.as_bytes())?))
        }
        _ => Ok(None),
    }
}
