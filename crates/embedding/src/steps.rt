//! The number of steps that a caller names.

ghost use Rattle.std.specs.Prelude.{◌≡◌};
ghost use Rattle.embedding.specs.Steps as spec;

/// Means the program's default: `FCBENCH_STEPS` of the header.
const PROGRAM_STEPS: u32 = u32::MAX;

/// The program's default, the default of `STEPS` of the crate `command_line`.
const DEFAULT_STEPS: u32 = 1_000_000;

/// The steps of a search.
pub(crate) fn search_steps(steps: u32) -> u32
    ensures { result ≡ spec.search_steps steps }
{
    if steps == PROGRAM_STEPS {
        DEFAULT_STEPS
    } else {
        steps
    }
}
