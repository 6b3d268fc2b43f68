//! The events of a shard with the numbers of the full history: its table says which number each of
//! its maps has there.

ghost use Rattle.std.specs.Prelude.{◌≡◌, ◌≤◌, ◌<◌, ◌+◌, ◌-◌, ◌*◌, ◌^◌, ℕ, List, true, length};
ghost use Rattle.std.specs.Prelude.{All, AllPairs, IfErr, IfNone, IfOk, IfSome, slice_index};
ghost use Rattle.edn_reader.specs.Bytes.{is_digit};
ghost use Rattle.shards.specs.Dividing.{table_text, with_numbers};
ghost use Rattle.shards.specs.Tables.{AreShort, FitsTable};

use edn::push_natural;
use events::{Event, History};
use std::alloc::{AllocError, AllocFailed, Global};

/// Why a history does not get the numbers of a table.
#[derive(Clone, Copy, Debug, PartialEq, Eq)]
pub enum TableFault {
    /// The table has not a number for each event, on a line of its own and greater than the one
    /// before it.
    Misfit,
    NoMemory,
}

impl From<AllocError> for TableFault {
    ghost use Rattle.shards.specs.declared.numbering.TableFault.TheVariants.{NoMemory};

    ghost from_gives = { λ _ f. f ≡ NoMemory };

    fn from(_error: AllocError) -> TableFault {
        TableFault::NoMemory
    }
}

impl<T: Drop> From<AllocFailed<T>> for TableFault {
    ghost use Rattle.shards.specs.declared.numbering.TableFault.TheVariants.{NoMemory};

    ghost from_gives = { λ _ f. f ≡ NoMemory };

    fn from(_error: AllocFailed<T>) -> TableFault {
        TableFault::NoMemory
    }
}

/// The number with one more digit, if this byte is one and the number then has 32 bits.
fn with_digit(number: u32, byte: u8) -> Option<u32>
    ensures { is_digit byte ≡ true → number * 10 + (byte - 48) < 2 ^ 32
        → result ≡ Some (number * 10 + (byte - 48)) }
{
    match byte {
        b'0'..=b'9' => number.checked_mul(10)?.checked_add(u32::from(byte - b'0')),
        _ => None,
    }
}

/// The numbers on the lines of a table. Leading zeros, empty lines and a last line without a line
/// feed are not refused here.
fn numbers_in(alloc: Global, table: &[u8]) -> Result<Vec<u32>, TableFault>
    ensures read { IfOk result (λ v. (ns : List ℕ) → AreShort ns → table_text ns ≡ table.now
        → v.items ≡ ns) }
    ensures misfit { IfErr result (λ f. f ≡ TableFault.Misfit → (ns : List ℕ) → AreShort ns
        → table_text ns ≡ table.now → ⊥) }
{
    let mut numbers = Vec::new(alloc);
    let mut number = 0;
    for byte in table {
        if *byte == b'\n' {
            numbers.push(number)?;
            number = 0;
        } else {
            let Some(longer) = with_digit(number, *byte) else {
                return Err(TableFault::Misfit);
            };
            number = longer;
        }
    }
    Ok(numbers)
}

/// The table of these numbers.
pub(crate) fn table_of(alloc: Global, numbers: &[u32]) -> Result<Vec<u8>, AllocError>
    ensures written { IfOk result (λ table. table.items ≡ table_text numbers.now) }
    ensures short { AreShort numbers.now }
{
    let mut table = Vec::new(alloc);
    for number in numbers {
        push_natural(&mut table, u64::from(*number))?;
        table.extend_from_slice(b"\n")?;
    }
    Ok(table)
}

/// The numbers that a table has.
pub(crate) fn read_table(alloc: Global, table: &[u8]) -> Result<Vec<u32>, TableFault>
    ensures written { IfOk result (λ v. table_text v.items ≡ table.now) }
    ensures short { IfOk result (λ v. AreShort v.items) }
    ensures only { IfOk result (λ v. (ns : List ℕ) → AreShort ns → table_text ns ≡ table.now
        → v.items ≡ ns) }
    ensures misfit { IfErr result (λ f. f ≡ TableFault.Misfit → (ns : List ℕ) → AreShort ns
        → table_text ns ≡ table.now → ⊥) }
{
    let numbers = numbers_in(alloc, table)?;
    let written = table_of(alloc, &numbers)?;
    if written.as_slice() != table {
        return Err(TableFault::Misfit);
    }
    Ok(numbers)
}

/// The number in this place of the list, if it is at least this one.
fn number_at(numbers: &[u32], place: u32, least: u64) -> Option<u32>
    ensures own { IfSome result (λ n. n ≡ slice_index numbers.now place) }
    ensures placed { IfSome result (λ n. place < length numbers.now) }
    ensures far { IfSome result (λ n. least ≤ n) }
    ensures none { IfNone result (place < length numbers.now
        → slice_index numbers.now place < least) }
{
    let number = numbers.get(place as usize).copied()?;
    if u64::from(number) < least {
        return None;
    }
    Some(number)
}

/// The events, each with the number that is in its place of the list. These numbers have to rise.
fn renumber(alloc: Global, events: &[Event], numbers: &[u32]) -> Result<Vec<Event>, TableFault>
    ensures numbered { IfOk result (λ v. v.items ≡ with_numbers numbers.now events.now) }
    ensures placed { IfOk result (λ v. All (λ e. e.number < length numbers.now) events.now) }
    ensures rising { IfOk result (λ v. AllPairs (λ a b. a.number < b.number) v.items) }
    ensures misfit { IfErr result (λ f. f ≡ TableFault.Misfit
        → All (λ e. e.number < length numbers.now) events.now
        → AllPairs (λ a b. a.number < b.number) (with_numbers numbers.now events.now) → ⊥) }
{
    let mut renumbered = Vec::new(alloc);
    let mut least = 0;
    for event in events {
        let Some(number) = number_at(numbers, event.number, least) else {
            return Err(TableFault::Misfit);
        };
        renumbered.push(Event { number, ..*event })?;
        least = u64::from(number) + 1;
    }
    Ok(renumbered)
}

/// Gives each event of a shard's history the number that it has in the full history: that in the
/// place of its map in the table. The table has a line for each event, and no others: so no table
/// fits a history with a map that is ignored.
pub fn with_table(alloc: Global, history: History, table: &[u8]) -> Result<History, TableFault>
    ensures numbered { IfOk result (λ h. (ns : List ℕ) × FitsTable ns table.now history
        × (h ≡ with_numbers ns history)) }
    ensures misfit { IfErr result (λ f. f ≡ TableFault.Misfit → (ns : List ℕ)
        → FitsTable ns table.now history → ⊥) }
{
    let numbers = read_table(alloc, table)?;
    let events = history.events();
    if numbers.len() != events.len() {
        return Err(TableFault::Misfit);
    }
    Ok(History::new(renumber(alloc, events, &numbers)?))
}
