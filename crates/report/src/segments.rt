//! Lines made of segments.

ghost use Rattle.std.specs.Prelude.{◌≡◌, ◌++◌, false, true};
ghost use Rattle.edn.specs.Sent.{Writes};
ghost use Rattle.report.specs.Lines.{comment_text};
ghost use Rattle.report.specs.Segments.{segment_text, segments_text};

use edn::{Failed, Sink, write_bytes, write_integer, write_natural};

/// A part of a line.
#[derive(Clone, Copy)]
pub(crate) enum Segment {
    Text(&'static [u8]),
    Natural(usize),
    Integer(i64),
}

fn write_segment<S: Sink>(segment: Segment, sink: &mut S) -> Result<(), Failed>
    requires { S.broken sink.old ≡ false }
    ensures sent { Writes result (S.sent sink.old) (S.sent sink.new) (S.broken sink.new)
        (segment_text segment) }
{
    match segment {
        Segment::Text(text) => write_bytes(text, sink),
        Segment::Natural(n) => write_natural(n as u64, sink),
        Segment::Integer(n) => write_integer(n, sink),
    }
}

/// Writes the segments, one after the other.
fn write_segments<S: Sink>(segments: &[Segment], sink: &mut S) -> Result<(), Failed>
    requires { S.broken sink.old ≡ false }
    ensures sent { Writes result (S.sent sink.old) (S.sent sink.new) (S.broken sink.new)
        (segments_text segments.now) }
{
    for segment in segments {
        write_segment(*segment, sink)?;
    }
    Ok(())
}

/// Writes `; ` if the line is a comment.
fn write_comment<S: Sink>(commented: bool, sink: &mut S) -> Result<(), Failed>
    requires { S.broken sink.old ≡ false }
    ensures sent { Writes result (S.sent sink.old) (S.sent sink.new) (S.broken sink.new)
        (comment_text commented) }
{
    write_bytes(if commented { b"; " } else { b"" }, sink)
}

/// Writes these segments, of which the last has the line feed, as a line.
pub(crate) fn write_line<S: Sink>(
    commented: bool,
    segments: &[Segment],
    sink: &mut S,
) -> Result<(), Failed>
    requires { S.broken sink.old ≡ false }
    ensures sent { Writes result (S.sent sink.old) (S.sent sink.new) (S.broken sink.new)
        (comment_text commented ++ segments_text segments.now) }
{
    write_comment(commented, sink)?;
    write_segments(segments, sink)
}
