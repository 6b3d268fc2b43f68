//! The parts of an operation map in a usual form, from the front of a text. A text that is written
//! in another way is not read here, even if it is well formed.

ghost use Rattle.std.specs.Prelude.{◌≡◌, true, [], ◌∷◌, ◌++◌, codes, pos, IfSome};
ghost use Rattle.edn_reader.specs.Datum.{integer, keyword, atom};
ghost use Rattle.edn_reader.specs.Sound.{BeginWith};
ghost use Rattle.edn_reader.specs.Spells.{EndsToken};
ghost use Rattle.edn_reader.specs.Token.{leaf};
ghost use Rattle.seq_objects.specs.Functions.{name_of};
ghost use Rattle.history.specs.UsualForms.{type_name, ReadsValue};

use crate::client_map::MapType;
use edn::{after, ends_word, integer_at};
use seq_objects::{Function, Value};

/// A type after its colon's front, by the bytes that it begins with.
#[inline(always)]
fn type_front(text: &[u8]) -> Option<(MapType, &[u8])>
    ensures { IfSome result (λ x. text.entry.now ≡ 58 ∷ (type_name x.0 ++ x.1.now)) }
{
    if let Some(rest) = after(text, b":invoke") {
        Some((MapType::Invoke, rest))
    } else if let Some(rest) = after(text, b":ok") {
        Some((MapType::Ok, rest))
    } else if let Some(rest) = after(text, b":fail") {
        Some((MapType::Fail, rest))
    } else if let Some(rest) = after(text, b":info") {
        Some((MapType::Info, rest))
    } else {
        None
    }
}

/// The type of a map, and what follows it.
#[inline(always)]
pub(crate) fn type_at(text: &[u8]) -> Option<(MapType, &[u8])>
    ensures { IfSome result (λ x.
        BeginWith (leaf (atom (keyword (type_name x.0))) ∷ []) text.entry.now x.1.now) }
{
    let (map_type, rest) = type_front(text)?;
    if !ends_word(rest) {
        return None;
    }
    Some((map_type, rest))
}

/// This function, if the text goes on with these bytes.
#[inline(always)]
fn function_with<'a, const N: usize>(
    text: &'a [u8],
    bytes: &[u8; N],
    function: Function,
) -> Option<(Function, &'a [u8])>
    ensures { IfSome result (λ x. (x.0 ≡ function)
        × (text.entry.now ≡ bytes.now ++ x.1.now)) }
{
    Some((function, after(text, bytes)?))
}

/// The function whose name begins with `a` and goes on so.
#[inline(always)]
fn after_a(text: &[u8]) -> Option<(Function, &[u8])>
    ensures { IfSome result (λ x. 97 ∷ text.entry.now ≡ name_of x.0 ++ x.1.now) }
{
    if let Some(rest) = after(text, b"cquire") {
        Some((Function::Acquire, rest))
    } else if let Some(rest) = after(text, b"dd") {
        Some((Function::Add, rest))
    } else if let Some(rest) = after(text, b"ssoc") {
        Some((Function::Assoc, rest))
    } else {
        None
    }
}

/// The function whose name begins with `c` and goes on so.
#[inline(always)]
fn after_c(text: &[u8]) -> Option<(Function, &[u8])>
    ensures { IfSome result (λ x. 99 ∷ text.entry.now ≡ name_of x.0 ++ x.1.now) }
{
    if let Some(rest) = after(text, b"as") {
        Some((Function::Cas, rest))
    } else if let Some(rest) = after(text, b"ontains") {
        Some((Function::Has, rest))
    } else if let Some(rest) = after(text, b"reate") {
        Some((Function::Create, rest))
    } else if let Some(rest) = after(text, b"lear") {
        Some((Function::Clear, rest))
    } else {
        None
    }
}

/// The function whose name begins with `d` and goes on so.
#[inline(always)]
fn after_d(text: &[u8]) -> Option<(Function, &[u8])>
    ensures { IfSome result (λ x. 100 ∷ text.entry.now ≡ name_of x.0 ++ x.1.now) }
{
    if let Some(rest) = after(text, b"equeue") {
        Some((Function::Dequeue, rest))
    } else if let Some(rest) = after(text, b"el") {
        Some((Function::Del, rest))
    } else if let Some(rest) = after(text, b"issoc") {
        Some((Function::Dissoc, rest))
    } else {
        None
    }
}

/// The function whose name begins with `p` and goes on so.
#[inline(always)]
fn after_p(text: &[u8]) -> Option<(Function, &[u8])>
    ensures { IfSome result (λ x. 112 ∷ text.entry.now ≡ name_of x.0 ++ x.1.now) }
{
    if let Some(rest) = after(text, b"ut-if-absent") {
        Some((Function::PutIfAbsent, rest))
    } else if let Some(rest) = after(text, b"ut") {
        Some((Function::Put, rest))
    } else if let Some(rest) = after(text, b"ush") {
        Some((Function::Push, rest))
    } else if let Some(rest) = after(text, b"op") {
        Some((Function::Pop, rest))
    } else {
        None
    }
}

/// The function whose name begins with `r` and goes on so.
#[inline(always)]
fn after_r(text: &[u8]) -> Option<(Function, &[u8])>
    ensures { IfSome result (λ x. 114 ∷ text.entry.now ≡ name_of x.0 ++ x.1.now) }
{
    if let Some(rest) = after(text, b"ead") {
        Some((Function::Read, rest))
    } else if let Some(rest) = after(text, b"elease") {
        Some((Function::Release, rest))
    } else if let Some(rest) = after(text, b"emove") {
        Some((Function::Remove, rest))
    } else if let Some(rest) = after(text, b"eplace") {
        Some((Function::Replace, rest))
    } else {
        None
    }
}

/// The function whose name goes on so after its colon and its first letter.
#[inline(always)]
fn function_after(first: u8, text: &[u8]) -> Option<(Function, &[u8])>
    ensures { IfSome result (λ x. first ∷ text.entry.now ≡ name_of x.0 ++ x.1.now) }
{
    match first {
        b'a' => after_a(text),
        b'c' => after_c(text),
        b'd' => after_d(text),
        b'e' => function_with(text, b"nqueue", Function::Enqueue).or(function_with(
            text,
            b"xtract-min",
            Function::ExtractMin,
        )),
        b'f' => function_with(text, b"etch-add", Function::FetchAdd),
        b'g' => function_with(text, b"et-count", Function::GetCount).or(function_with(
            text,
            b"et",
            Function::Get,
        )),
        b'i' => function_with(text, b"nsert", Function::Insert),
        b'l' => function_with(text, b"ock", Function::LockBy),
        b'p' => after_p(text),
        b'r' => after_r(text),
        b'u' => function_with(text, b"nlock", Function::UnlockBy),
        b'w' => function_with(text, b"rite", Function::Write),
        _ => None,
    }
}

/// The function of a map, and what follows its name.
#[inline(always)]
pub(crate) fn function_at(text: &[u8]) -> Option<(Function, &[u8])>
    ensures { IfSome result (λ x.
        BeginWith (leaf (atom (keyword (name_of x.0))) ∷ []) text.entry.now x.1.now) }
{
    let [b':', first, tail @ ..] = text else {
        return None;
    };
    let (function, rest) = function_after(*first, tail)?;
    if !ends_word(rest) {
        return None;
    }
    Some((function, rest))
}

/// The pair of two integers after its bracket, and what follows it.
#[inline(always)]
fn pair_after(inside: &[u8]) -> Option<(Value, &[u8])>
    ensures { IfSome result (λ x. ReadsValue (91 ∷ inside.entry.now) x.0 x.1.now) }
{
    let (x, rest) = integer_at(inside)?;
    let (y, rest) = integer_at(after(rest, b" ")?)?;
    Some((Value::Pair(x, y), after(rest, b"]")?))
}

/// This value, if the text begins with these bytes.
#[inline(always)]
fn word_at<'a, const N: usize>(
    text: &'a [u8],
    word: &[u8; N],
    value: Value,
) -> Option<(Value, &'a [u8])>
    ensures { IfSome result (λ x. (x.0 ≡ value) × EndsToken x.1.now
        × (text.entry.now ≡ word.now ++ x.1.now)) }
{
    let rest = after(text, word)?;
    if !ends_word(rest) {
        return None;
    }
    Some((value, rest))
}

/// Reads an argument or a reply, and returns what follows it. A vector of three integers is not
/// read here: a map that has one is read by its tokens.
#[inline(always)]
pub(crate) fn value_at(text: &[u8]) -> Option<(Value, &[u8])>
    ensures { IfSome result (λ x. ReadsValue text.entry.now x.0 x.1.now) }
{
    match text {
        [b'n', ..] => word_at(text, b"nil", Value::Nil),
        [b'f', ..] => word_at(text, b"false", Value::False),
        [b't', ..] => word_at(text, b"true", Value::True),
        [b'[', inside @ ..] => pair_after(inside),
        _ => {
            let (number, rest) = integer_at(text)?;
            Some((Value::Int(number), rest))
        }
    }
}
