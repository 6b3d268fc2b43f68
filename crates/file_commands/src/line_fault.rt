//! How the program ends if words give no command.

ghost use Rattle.std.specs.Prelude.{◌≡◌};
ghost use Rattle.file_commands.specs.LineFaults as spec;

use command_line::LineFault;
use history_commands::Status;

/// The exit status if there is no command: `Yes` if help was asked for.
pub fn status_of_fault(fault: &LineFault) -> Status
    ensures { result ≡ spec.status_of_fault fault.now }
{
    match fault {
        LineFault::Help(_) => Status::Yes,
        LineFault::Refused(_) => Status::Usage,
        LineFault::NoMemory => Status::OutOfMemory,
    }
}
