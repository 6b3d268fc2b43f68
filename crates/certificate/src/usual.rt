//! A certificate in the usual form, as it is written, read from the front of a text by patterns of
//! bytes.

ghost use Rattle.std.specs.Prelude.{◌≡◌, ◌⊎◌, ◌∷◌, [], ◌++◌, IfSome, OnOk};
ghost use Rattle.std.specs.Str.{IsUtf8};
ghost use Rattle.certificate.specs.UsualForms.{ReadsUsual, ReadsOrder};

use crate::Certificate;
use edn::{after, after_line_feed, integer_at, natural_at, object_number};
use std::alloc::{AllocError, Global};

/// The text without the space that it begins with, if it begins with one.
#[inline(always)]
fn after_space(text: &[u8]) -> &[u8]
    ensures { (text.entry.now ≡ result.now) ⊎ (text.entry.now ≡ 32 ∷ result.now) }
{
    match text {
        [b' ', rest @ ..] => rest,
        _ => text,
    }
}

/// One more number, which may ask for room.
#[cold]
#[inline(never)]
fn push_growing(numbers: &mut Vec<i64>, number: i64) -> Result<(), AllocError>
    ensures { OnOk result (numbers.new.items ≡ numbers.old.items ++ number ∷ []) }
{
    numbers.push(number)?;
    Ok(())
}

/// One more number.
#[inline(always)]
fn push(numbers: &mut Vec<i64>, number: i64) -> Result<(), AllocError>
    ensures { OnOk result (numbers.new.items ≡ numbers.old.items ++ number ∷ []) }
{
    // Most pushes find room: these are made here, and only the others by a call.
    if numbers.len() < numbers.capacity() {
        numbers.push_reserved(number);
        return Ok(());
    }
    push_growing(numbers, number)
}

/// The integers of an order after its bracket, and what follows the bracket that closes it. There
/// may be a space before each of them. If an allocation fails there is none.
fn order_after(alloc: Global, text: &[u8]) -> Option<(Vec<i64>, &[u8])>
    ensures { IfSome result (λ x. ReadsOrder text.entry.now x.0.items x.1.now) }
{
    let mut order = Vec::new(alloc);
    let mut rest = text;
    'numbers: loop {
        let here = after_space(rest);
        if let [b']', tail @ ..] = here {
            return Some((order, tail));
        }
        let (number, tail) = integer_at(here)?;
        let Ok(()) = push(&mut order, number) else {
            return None;
        };
        rest = tail;
    }
}

/// The certificate at the front, and what follows it. Its keys are the object and the order, with a
/// comma and a space between them. Returns None for any other spelling, even a correct one, and if
/// an allocation fails for the order.
pub(crate) fn usual_certificate(alloc: Global, text: &[u8]) -> Option<(Certificate, &[u8])>
    requires { IsUtf8 text.now }
    ensures { IfSome result (λ x. ReadsUsual text.entry.now x.0 x.1.now) }
{
    let (number, rest) = natural_at(after(after_line_feed(text), b"{:object ")?)?;
    let object = object_number(Some(number))?;
    let (order, rest) = order_after(alloc, after(rest, b", :order [")?)?;
    let rest = after(rest, b"}")?;
    Some((Certificate { object, order }, rest))
}
