//! Reads a text to its end, or to one byte more than the longest that is judged.

ghost use Rattle.std.specs.Prelude.{◌≡◌, ◌<◌, ◌≤◌, ℕ, length, false, true, OnOk, IfOk, IfErr};
ghost use Rattle.edn.specs.Given.{WasRead};
ghost use Rattle.reading.specs.Reads.{read_limit, SourceAfterFault, WasRefused};

use edn::{Failed, MAX_LENGTH, Source};
use std::alloc::{AllocError, Global};

/// One byte more than the longest text that is judged.
pub const READ_LIMIT: usize = MAX_LENGTH + 1;

/// How many bytes a source is asked for at a time.
const PIECE_LENGTH: usize = 65_536;

/// Why a text was not read.
#[derive(Clone, Copy, Debug, PartialEq, Eq)]
pub enum ReadFault {
    /// The source failed.
    Failed,
    NoMemory,
}

impl From<Failed> for ReadFault {
    ghost use Rattle.reading.specs.declared.from_source.ReadFault.TheVariants as fault;

    ghost from_gives = { λ _ e. e ≡ fault.Failed };

    fn from(_failed: Failed) -> ReadFault {
        ReadFault::Failed
    }
}

impl From<AllocError> for ReadFault {
    ghost use Rattle.reading.specs.declared.from_source.ReadFault.TheVariants as fault;

    ghost from_gives = { λ _ e. e ≡ fault.NoMemory };

    fn from(_refused: AllocError) -> ReadFault {
        ReadFault::NoMemory
    }
}

/// Reads the bytes of a source, to its end or to the limit, in pieces of 64 kB.
pub fn read_text<S: Source>(alloc: Global, source: &mut S) -> Result<Vec<u8>, ReadFault>
    requires { S.broken source.old ≡ false }
    ensures read { IfOk result (λ v.
        WasRead read_limit (S.remaining source.old) (S.remaining source.new) v.items) }
    ensures usable { OnOk result (S.broken source.new ≡ false) }
    ensures fault { IfErr result (SourceAfterFault (S.broken source.new)) }
    // The source failed only if it refused a call.
    ensures refused { IfErr result (λ e. e ≡ ReadFault.Failed →
        WasRefused S.remaining S.refuses source.old source.new) }
{
    let mut bytes = Vec::new(alloc);
    let mut buffer = vec![in alloc; 0; PIECE_LENGTH]?;
    while bytes.len() < READ_LIMIT {
        // no more than is left to the limit
        buffer.truncate(READ_LIMIT - bytes.len());
        let given = source.get(&mut buffer)?;
        if given == 0 {
            return Ok(bytes);
        }
        bytes.extend_from_slice(&buffer[..given])?;
    }
    Ok(bytes)
}
