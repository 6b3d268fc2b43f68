//! Lines made of segments.

ghost use Rattle.std.specs.Prelude.{◌≡◌, ◌++◌, codes, OnOk};
ghost use Rattle.std.specs.Fmt.{signed_decimal};
ghost use Rattle.reason_report.specs.Segments.{comment_text, value_text};
ghost use Rattle.reason_report.specs.Segments.{segment_text, segments_text};

use edn::{push_integer, push_natural};
use seq_objects::Value;
use std::alloc::AllocError;

/// A part of a line.
#[derive(Clone, Copy)]
pub(crate) enum Segment {
    Text(&'static [u8]),
    Natural(u64),
    /// An argument or a reply, as a history writes it.
    Value(Value),
}

/// Appends two integers, and the end of their vector.
fn push_last(text: &mut Vec<u8>, a: i64, b: i64) -> Result<(), AllocError>
    ensures { OnOk result (text.new.items ≡ text.old.items
        ++ (signed_decimal a ++ (codes " " ++ (signed_decimal b ++ codes "]")))) }
{
    push_integer(text, a)?;
    text.extend_from_slice(b" ")?;
    push_integer(text, b)?;
    text.extend_from_slice(b"]")
}

fn push_pair(text: &mut Vec<u8>, a: i64, b: i64) -> Result<(), AllocError>
    ensures { OnOk result (text.new.items ≡ text.old.items ++ (codes "["
        ++ (signed_decimal a ++ (codes " " ++ (signed_decimal b ++ codes "]"))))) }
{
    text.extend_from_slice(b"[")?;
    push_last(text, a, b)
}

fn push_triple(text: &mut Vec<u8>, a: i64, b: i64, c: i64) -> Result<(), AllocError>
    ensures { OnOk result (text.new.items ≡ text.old.items ++ (codes "[" ++ (signed_decimal a
        ++ (codes " " ++ (signed_decimal b ++ (codes " " ++ (signed_decimal c ++ codes "]"))))))) }
{
    text.extend_from_slice(b"[")?;
    push_integer(text, a)?;
    text.extend_from_slice(b" ")?;
    push_last(text, b, c)
}

fn push_value(text: &mut Vec<u8>, value: Value) -> Result<(), AllocError>
    ensures { OnOk result (text.new.items ≡ text.old.items ++ value_text value) }
{
    match value {
        Value::Nil => text.extend_from_slice(b"nil"),
        Value::False => text.extend_from_slice(b"false"),
        Value::True => text.extend_from_slice(b"true"),
        Value::Int(n) => push_integer(text, n),
        Value::Pair(a, b) => push_pair(text, a, b),
        Value::Triple(a, b, c) => push_triple(text, a, b, c),
    }
}

fn push_segment(text: &mut Vec<u8>, segment: Segment) -> Result<(), AllocError>
    ensures { OnOk result (text.new.items ≡ text.old.items ++ segment_text segment) }
{
    match segment {
        Segment::Text(bytes) => text.extend_from_slice(bytes),
        Segment::Natural(n) => push_natural(text, n),
        Segment::Value(value) => push_value(text, value),
    }
}

/// Appends the segments, one after the other.
pub(crate) fn push_segments(text: &mut Vec<u8>, segments: &[Segment]) -> Result<(), AllocError>
    ensures { OnOk result (text.new.items ≡ text.old.items ++ segments_text segments.now) }
{
    for segment in segments {
        push_segment(text, *segment)?;
    }
    Ok(())
}

/// Appends `; ` if the line is a comment.
pub(crate) fn push_comment(text: &mut Vec<u8>, commented: bool) -> Result<(), AllocError>
    ensures { OnOk result (text.new.items ≡ text.old.items ++ comment_text commented) }
{
    text.extend_from_slice(if commented { b"; " } else { b"" })
}
