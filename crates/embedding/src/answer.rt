//! Answers in the caller's buffer.

ghost use Rattle.std.specs.Prelude.{◌≡◌, IfOk, IfErr, codes};
ghost use Rattle.history_commands.specs.Outputs.{status_number};
ghost use Rattle.embedding.specs.Handed.{IsHandedOut};

use history_commands::{Output, Status};
use std::alloc::AllocError;

/// Writes the lines, or as much of them as there is room for, and says how long they are.
fn hand_out(lines: &[u8], out: &mut [u8], needed: &mut usize)
    ensures { IsHandedOut lines.now out.old out.new needed.new }
{
    let given = lines.len().min(out.len());
    out[..given].copy_from_slice(&lines[..given]);
    *needed = lines.len();
}

/// Copies the output into the buffer, and returns the number of its status; or reports a failed
/// allocation.
pub(crate) fn answer(made: Result<Output, AllocError>, out: &mut [u8], needed: &mut usize) -> u32
    ensures made { IfOk made (λ o. (result ≡ status_number o.status)
        × IsHandedOut o.text.items out.old out.new needed.new) }
    ensures memory { IfErr made (λ _. (result ≡ status_number Status.OutOfMemory)
        × IsHandedOut (codes "out of memory\n") out.old out.new needed.new) }
{
    match made {
        Ok(output) => {
            hand_out(&output.text, out, needed);
            u32::from(output.status.number())
        }
        Err(AllocError) => {
            hand_out(b"out of memory\n", out, needed);
            u32::from(Status::OutOfMemory.number())
        }
    }
}
