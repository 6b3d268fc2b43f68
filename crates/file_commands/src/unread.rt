//! How a command ends if one of its files was not read.

ghost use Rattle.std.specs.Prelude.{◌≡◌, false, IfOk, IfErr};
ghost use Rattle.file_commands.specs.Leaves.{Leaves};
ghost use Rattle.history_commands.specs.Outputs.{IsOutOfMemory};
ghost use Rattle.reading.specs.declared.from_source.ReadFault.TheVariants as fault_is;

use crate::written::write_output;
use edn::Sink;
use reading::{ReadFault, UnreadSource, WhichSource};
use std::alloc::AllocError;

/// Returns the source that failed, or says that an allocation failed, and returns the exit status.
pub fn end_unread<S: Sink>(unread: UnreadSource, sink: &mut S) -> Result<u8, WhichSource>
    requires working { S.broken sink.old ≡ false }
    ensures leaves { IfOk result (λ number. Leaves IsOutOfMemory
        (S.sent sink.old) number (S.sent sink.new) (S.broken sink.new)) }
    ensures memory { IfOk result (λ _. unread.fault ≡ fault_is.NoMemory) }
    ensures unread { IfErr result (λ which. (which ≡ unread.which)
        × (unread.fault ≡ fault_is.Failed)) }
    ensures nothing_written { IfErr result (λ _. sink.new ≡ sink.old) }
{
    match unread.fault {
        ReadFault::Failed => Err(unread.which),
        ReadFault::NoMemory => Ok(write_output(Err(AllocError), sink)),
    }
}
