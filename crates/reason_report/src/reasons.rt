//! The line of a reason.

ghost use Rattle.std.specs.Prelude.{◌≡◌, ◌++◌, OnOk};
ghost use Rattle.refutation.specs.Lines as spec;
ghost use Rattle.reason_report.specs.Segments.{comment_text};

use crate::segments::push_comment;
use refutation::{Reason, reason_lines};
use std::alloc::{AllocError, Global};

/// Appends the line of the reason, after `; ` if it is a comment.
pub fn push_reason(
    alloc: Global,
    text: &mut Vec<u8>,
    commented: bool,
    reason: &Reason,
) -> Result<(), AllocError>
    ensures { OnOk result (text.new.items ≡ text.old.items
        ++ (comment_text commented ++ spec.reason_line reason.now)) }
{
    let line = reason_lines(alloc, std::slice::from_ref(reason))?;
    push_comment(text, commented)?;
    text.extend_from_slice(&line)
}
