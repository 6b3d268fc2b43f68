//! Writes what a command made.

ghost use Rattle.std.specs.Prelude.{◌≡◌, ◌≢◌, false};
ghost use Rattle.file_commands.specs.Leaves.{IsMade, Leaves};
ghost use Rattle.history_commands.specs.Outputs.{IsExactly};

use edn::{Failed, Sink, write_bytes};
use history_commands::{Output, Status};
use std::alloc::AllocError;

/// Writes the lines, and returns the exit status.
fn send<S: Sink>(lines: &[u8], status: Status, sink: &mut S) -> u8
    requires working { S.broken sink.old ≡ false }
    requires not_failed { status ≢ Status.Failed }
    ensures leaves { Leaves (IsExactly status lines.now)
        (S.sent sink.old) result (S.sent sink.new) (S.broken sink.new) }
{
    match write_bytes(lines, sink) {
        Ok(()) => status.number(),
        Err(Failed) => Status::Failed.number(),
    }
}

/// Writes what was made, or says that an allocation failed, and returns the exit status.
pub fn write_output<S: Sink>(made: Result<Output, AllocError>, sink: &mut S) -> u8
    requires working { S.broken sink.old ≡ false }
    ensures leaves { Leaves (IsMade made)
        (S.sent sink.old) result (S.sent sink.new) (S.broken sink.new) }
{
    match made {
        Ok(output) => send(&output.text, output.status, sink),
        Err(AllocError) => send(b"out of memory\n", Status::OutOfMemory, sink),
    }
}
