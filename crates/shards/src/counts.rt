//! The text that says how many maps each shard has: a table with the number of the shards, and then
//! with these numbers.

ghost use Rattle.std.specs.Prelude.{◌≡◌, ◌<◌, ◌^◌, ℕ, List, length, IfErr, IfOk};
ghost use Rattle.shards.specs.Dividing as spec;
ghost use Rattle.shards.specs.Tables.{AreShort};

use crate::numbering::{TableFault, read_table, table_of};
use edn::push_natural;
use std::alloc::{AllocError, Global};

/// Returns the text that says how many maps each shard has.
pub fn counts_text(alloc: Global, counts: &[u32]) -> Result<Vec<u8>, AllocError>
    ensures { IfOk result (λ text. text.items ≡ spec.counts_text counts.now) }
{
    let mut text = Vec::new(alloc);
    push_natural(&mut text, counts.len() as u64)?;
    text.extend_from_slice(b"\n")?;
    text.extend_from_slice(&table_of(alloc, counts)?)?;
    Ok(text)
}

/// Returns the number of maps of each shard that a text says. A text that lost its end, or has only
/// the number of the shards, is a misfit.
pub fn counts_in(alloc: Global, text: &[u8]) -> Result<Vec<u32>, TableFault>
    ensures read { IfOk result (λ v. spec.counts_text v.items ≡ text.now) }
    ensures misfit { IfErr result (λ f. f ≡ TableFault.Misfit → (counts : List ℕ)
        → AreShort counts → length counts < 2 ^ 32 → spec.counts_text counts ≡ text.now → ⊥) }
{
    let numbers = match read_table(alloc, text) {
        Ok(numbers) => numbers,
        Err(fault) => return Err(fault),
    };
    let [shards, counts @ ..] = numbers.as_slice() else {
        return Err(TableFault::Misfit);
    };
    if counts.len() as u64 != u64::from(*shards) {
        return Err(TableFault::Misfit);
    }
    Ok(Vec::from_slice(alloc, counts)?)
}
