//! Lines with numbers in them, and lines on objects.

ghost use Rattle.std.specs.Prelude.{◌≡◌, ◌++◌, codes, decimal, OnOk, IfOk};

use edn::push_natural;
use std::alloc::{AllocError, Global};

/// A text with one number in it.
pub fn text_with_number(
    alloc: Global,
    before: &[u8],
    n: u64,
    after: &[u8],
) -> Result<Vec<u8>, AllocError>
    ensures { IfOk result (λ v. v.items ≡ before.now ++ (decimal n ++ after.now)) }
{
    let mut text = Vec::new(alloc);
    text.extend_from_slice(before)?;
    push_natural(&mut text, n)?;
    text.extend_from_slice(after)?;
    Ok(text)
}

/// The line of a fault with its number and its place.
pub fn line_with_place(
    alloc: Global,
    before: &[u8],
    number: u8,
    at: &[u8],
    place: usize,
) -> Result<Vec<u8>, AllocError>
    ensures { IfOk result (λ v.
        v.items ≡ before.now ++ (decimal number ++ (at.now ++ (decimal place ++ codes "\n")))) }
{
    let mut text = text_with_number(alloc, before, u64::from(number), at)?;
    push_natural(&mut text, place as u64)?;
    text.extend_from_slice(b"\n")?;
    Ok(text)
}

/// Appends `; object X`.
fn push_object(text: &mut Vec<u8>, object: u32) -> Result<(), AllocError>
    ensures { OnOk result (text.new.items ≡ text.old.items
        ++ (codes "; object " ++ decimal object)) }
{
    text.extend_from_slice(b"; object ")?;
    push_natural(text, u64::from(object))
}

/// Appends `; object X`, and then this text.
pub(crate) fn push_object_line(
    text: &mut Vec<u8>,
    object: u32,
    note: &[u8],
) -> Result<(), AllocError>
    ensures { OnOk result (text.new.items ≡ text.old.items
        ++ ((codes "; object " ++ decimal object) ++ note.now)) }
{
    push_object(text, object)?;
    text.extend_from_slice(note)
}

/// The line that says after how many steps a search was given up.
pub(crate) fn push_steps(text: &mut Vec<u8>, object: u32, steps: u64) -> Result<(), AllocError>
    ensures { OnOk result (text.new.items ≡ text.old.items
        ++ ((codes "; object " ++ decimal object)
        ++ (codes ": out of steps after " ++ (decimal steps ++ codes "\n")))) }
{
    push_object(text, object)?;
    text.extend_from_slice(b": out of steps after ")?;
    push_natural(text, steps)?;
    text.extend_from_slice(b"\n")
}
