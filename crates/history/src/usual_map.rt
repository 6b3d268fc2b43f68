//! An operation map in one of the usual forms, read from the front of a text by patterns of bytes.

ghost use Rattle.std.specs.Prelude.{◌≡◌, false, IfSome};
ghost use Rattle.std.specs.Str.{IsUtf8};
ghost use Rattle.history.specs.UsualForms.{ReadsUsual, ReadsLast, operation_keys, keys_to_object};
ghost use Rattle.history.specs.UsualForms.{keys_to_time, keys_to_index, IsNoneOf, ReadsAtom};

use crate::client_map::{ClientMap, short};
use crate::usual::{function_at, type_at, value_at};
use edn::{Piece, after, after_line_feed, integer_at, natural_at};

/// Whether the key has a meaning in a map.
fn has_meaning(key: &str) -> bool
    ensures { result ≡ false → IsNoneOf key.now keys_to_index }
{
    key == "index"
        || key == "time"
        || key == "object"
        || key == "process"
        || key == "type"
        || key == "f"
        || key == "value"
}

/// What follows a keyword, or an integer that has no sign.
#[inline(always)]
fn after_atom(text: &[u8]) -> Option<&[u8]>
    ensures { IfSome result (λ rest. ReadsAtom text.entry.now rest.now) }
{
    match text {
        [b':', tail @ ..] => {
            let (_, rest) = Piece::usual_keyword(tail)?;
            Some(rest)
        }
        _ => {
            let (_, rest) = integer_at(text)?;
            Some(rest)
        }
    }
}

/// What follows a map whose last pair has a key without a meaning.
// Not inlined, since most maps have no such pair.
#[inline(never)]
fn after_note(text: &[u8]) -> Option<&[u8]>
    ensures { IfSome result (λ rest. ReadsLast keys_to_index text.entry.now 0 rest.now) }
{
    let (key, rest) = Piece::usual_keyword(after(text, b", :")?)?;
    if has_meaning(key) {
        return None;
    }
    let rest = after_atom(after(rest, b" ")?)?;
    after(rest, b"}")
}

/// What follows a map that has no more pairs, or one whose key has no meaning.
#[inline(always)]
fn after_pairs(text: &[u8]) -> Option<&[u8]>
    ensures { IfSome result (λ rest. ReadsLast keys_to_index text.entry.now 0 rest.now) }
{
    match after(text, b"}") {
        Some(rest) => Some(rest),
        None => after_note(text),
    }
}

/// What follows a map that may have an index, and one more pair.
#[inline(always)]
fn after_index(text: &[u8]) -> Option<&[u8]>
    ensures { IfSome result (λ rest. ReadsLast keys_to_time text.entry.now 0 rest.now) }
{
    let Some(rest) = after(text, b", :index ") else {
        return after_pairs(text);
    };
    let (_, rest) = integer_at(rest)?;
    after_pairs(rest)
}

/// What follows a map that may have a time, an index, and one more pair.
#[inline(always)]
fn after_time(text: &[u8]) -> Option<&[u8]>
    ensures { IfSome result (λ rest. ReadsLast keys_to_object text.entry.now 0 rest.now) }
{
    let Some(rest) = after(text, b", :time ") else {
        return after_index(text);
    };
    let (_, rest) = integer_at(rest)?;
    after_index(rest)
}

/// The object of a map after its first four pairs, which is 0 if it has none, and what follows
/// the map.
#[inline(always)]
fn object_at(text: &[u8]) -> Option<(u32, &[u8])>
    ensures { IfSome result (λ x. ReadsLast operation_keys text.entry.now x.0 x.1.now) }
{
    let Some(rest) = after(text, b", :object ") else {
        return Some((0, after_time(text)?));
    };
    let (number, rest) = natural_at(rest)?;
    let object = short(Some(number))?;
    Some((object, after_time(rest)?))
}

/// A map whose first key is the process, and what follows it.
#[inline(always)]
fn process_first(text: &[u8]) -> Option<(ClientMap, &[u8])>
    requires { IsUtf8 text.now }
    ensures { IfSome result (λ x. ReadsUsual text.entry.now x.0 x.1.now) }
{
    let (process, rest) = natural_at(after(after_line_feed(text), b"{:process ")?)?;
    let (map_type, rest) = type_at(after(rest, b", :type ")?)?;
    let (function, rest) = function_at(after(rest, b", :f ")?)?;
    let (value, rest) = value_at(after(rest, b", :value ")?)?;
    let (object, rest) = object_at(rest)?;
    let map = ClientMap {
        process,
        map_type,
        function: Some(function),
        object,
        value: Some(value),
    };
    Some((map, rest))
}

/// A map as Jepsen writes it, with the index and the time first, and what follows it.
#[inline(always)]
fn index_first(text: &[u8]) -> Option<(ClientMap, &[u8])>
    requires { IsUtf8 text.now }
    ensures { IfSome result (λ x. ReadsUsual text.entry.now x.0 x.1.now) }
{
    let (_, rest) = integer_at(after(after_line_feed(text), b"{:index ")?)?;
    let (_, rest) = integer_at(after(rest, b", :time ")?)?;
    let (map_type, rest) = type_at(after(rest, b", :type ")?)?;
    let (process, rest) = natural_at(after(rest, b", :process ")?)?;
    let (function, rest) = function_at(after(rest, b", :f ")?)?;
    let (value, rest) = value_at(after(rest, b", :value ")?)?;
    let rest = after(rest, b"}")?;
    let map = ClientMap {
        process,
        map_type,
        function: Some(function),
        object: 0,
        value: Some(value),
    };
    Some((map, rest))
}

/// The operation map of a client at the front, and what follows it. Its keys are in one of two
/// orders, with a comma and a space before each except the first:
///
///     {:process 0, :type :ok, :f :read, :value 1, :object 0, :time 7, :index 1, :note 5}
///     {:index 1, :time 7, :type :ok, :process 0, :f :read, :value 1}
///
/// In the first order each key from `:object` on may be absent, and the last may be any key without
/// a meaning. A map that is written in another way may be well formed, and is not found here. No
/// clause says that a map is found: if none is, the slower reader is asked.
#[inline(always)]
pub(crate) fn usual_map(text: &[u8]) -> Option<(ClientMap, &[u8])>
    requires { IsUtf8 text.now }
    ensures { IfSome result (λ x. ReadsUsual text.entry.now x.0 x.1.now) }
{
    match process_first(text) {
        Some(found) => Some(found),
        None => index_first(text),
    }
}
