//! The commands on a folder of shards: a history of any length is divided, and its shards are
//! judged.

ghost use Rattle.std.specs.Prelude.{◌≡◌, ◌<◌, ◌⊎◌, ℕ, List, [], false, length, nat_lt};
ghost use Rattle.std.specs.Prelude.{IfErr, IfOk, IfSome, OnErr};
ghost use Rattle.history_commands.specs.Merged.{AreMerged, HasMaps, HasMapsOrIsLarge, Shard};
ghost use Rattle.history_commands.specs.Outputs.{IsExactly, status_number};
ghost use Rattle.file_commands.specs.Leaves.{Leaves};
ghost use Rattle.file_commands.specs.Sharded as spec;
ghost use Rattle.file_commands.specs.Sharded.{AreMapsCounted, AreShardsRead, FolderHoldsLines};
ghost use Rattle.file_commands.specs.Sharded.{FolderHoldsSplit};
ghost use Rattle.file_commands.specs.Sharded.{IsMergeOf, IsMergeOfFolder};
ghost use Rattle.file_commands.specs.Sharded.{IsSplitOutput, IsWhereTooFewShards, split_fault_line};
ghost use Rattle.history.specs.Faults.{max_maps};
ghost use Rattle.std.specs.List.{list_any};
ghost use Rattle.shards.specs.Folders.{WasDivided};
ghost use Rattle.shards.specs.declared.division.Division.{Division};
ghost use Rattle.shards.specs.ShardTexts.{IsLinearizableAtAnyLength};

use crate::written::write_output;
use edn::{Sink, Source, push_natural};
use history::{MAX_MAPS, TextFault};
use history_commands::{Merging, Output, ShardNumber, Status, verdict_output};
use report::{Fault, Verdict};
use shards::{Division, Folder, LargeObject, SplitFault, split_over};
use std::alloc::{AllocError, Global};

/// Which file of a shard it is.
#[derive(Clone, Copy, Debug, PartialEq, Eq)]
pub enum ShardFile {
    Text,
    Table,
    Evidence,
    /// The exit status that a worker left.
    Status,
}

/// Why a history was not divided, other than by a fault of its text.
#[derive(Clone, Copy, Debug, PartialEq, Eq)]
pub enum SplitFailure {
    /// The history could not be read.
    Unread,
    /// The files of the shards could not be written.
    Unwritten,
    /// The history has a map on this object, which needs more shards.
    TooFewShards(u32),
    /// An allocation failed. That is an error and not the status 3, which says that the folder has
    /// all maps.
    NoMemory,
}

impl From<AllocError> for SplitFailure {
    ghost use Rattle.file_commands.specs.declared.folders.SplitFailure.TheVariants.{NoMemory};

    ghost from_gives = { λ _ e. e ≡ NoMemory };

    fn from(_refused: AllocError) -> SplitFailure {
        SplitFailure::NoMemory
    }
}

/// A file of a shard that could not be read.
#[derive(Clone, Copy, Debug, PartialEq, Eq)]
pub struct UnreadShard {
    pub shard: u16,
    pub file: ShardFile,
}

/// What the files of a shard hold: its text, its table of places in the full history, and the
/// evidence for it, which is empty if there is none.
#[derive(Drop)]
pub struct ShardFileTexts {
    pub text: Vec<u8>,
    pub table: Vec<u8>,
    pub evidence: Vec<u8>,
}

/// Why the files of a shard could not be read.
#[derive(Clone, Copy, Debug, PartialEq, Eq)]
pub enum ShardFault {
    /// This one could not be read.
    Unread(ShardFile),
    NoMemory,
}

/// Where the files of shards are read.
pub trait ShardFiles {
    /// What the files of a shard may hold: its text, its table, and its evidence.
    ghost holds: { Self → ℕ → List ℕ → List ℕ → List ℕ → Type 0 };

    fn read(&self, alloc: Global, shard: u16) -> Result<ShardFileTexts, ShardFault>
        ensures { IfOk result (λ t.
            holds self.now shard t.text.items t.table.items t.evidence.items) };
}

/// The fault of a history's text, as a verdict has it.
fn fault_of(fault: TextFault) -> Fault
    ensures { result ≡ spec.fault_of fault }
{
    match fault {
        TextFault::Text(fault) => Fault::HistoryText(fault),
        TextFault::Maps(fault) => Fault::HistoryMaps(fault),
    }
}

/// The output if the full history is malformed.
fn malformed_output(alloc: Global, fault: TextFault) -> Result<Output, AllocError>
    ensures { IfOk result (λ o.
        IsExactly Status.Malformed (split_fault_line fault) o.status o.text.items) }
{
    verdict_output(alloc, &Verdict::Malformed(fault_of(fault)))
}

/// The line with the number of the maps in the shards.
fn count_line(alloc: Global, counts: &[u32]) -> Result<Vec<u8>, AllocError> {
    let maps = counts
        .iter()
        .fold(0u64, |maps, count| maps.saturating_add(u64::from(*count)));
    let mut text = Vec::new(alloc);
    push_natural(&mut text, maps)?;
    text.extend_from_slice(b" maps in ")?;
    push_natural(&mut text, counts.len() as u64)?;
    text.extend_from_slice(b" shards\n")?;
    Ok(text)
}

/// Whether a shard has more maps than a text may have.
fn is_too_large(maps: u32) -> bool
    ensures { result ≡ nat_lt max_maps maps }
{
    maps as usize > MAX_MAPS
}

/// Whether some shard has.
fn is_any_too_large(counts: &[u32]) -> bool
    ensures { result ≡ list_any (λ maps. nat_lt max_maps maps) counts.now }
{
    counts.iter().any(|maps| is_too_large(*maps))
}

/// How a split ends into shards with these numbers of maps.
fn status_by_counts(counts: &[u32]) -> Status
    ensures { result ≡ spec.status_by_counts counts.now }
{
    if is_any_too_large(counts) {
        Status::Undecided
    } else {
        Status::Yes
    }
}

/// Appends the line of a shard or an object that has too many maps.
fn push_large(text: &mut Vec<u8>, what: &[u8], number: u64, maps: u32) -> Result<(), AllocError> {
    text.extend_from_slice(what)?;
    push_natural(text, number)?;
    text.extend_from_slice(b": ")?;
    push_natural(text, u64::from(maps))?;
    text.extend_from_slice(b" maps, too many for one text\n")
}

/// Appends the lines of the shards that have too many maps.
fn push_large_shards(text: &mut Vec<u8>, counts: &[u32]) -> Result<(), AllocError> {
    for shard in 0..counts.len() {
        if is_too_large(counts[shard]) {
            push_large(text, b"shard ", shard as u64, counts[shard])?;
        }
    }
    Ok(())
}

/// Appends the lines of the objects that have too many maps.
fn push_large_objects(text: &mut Vec<u8>, objects: &[LargeObject]) -> Result<(), AllocError> {
    for large in objects {
        push_large(text, b"object ", u64::from(large.object), large.maps)?;
    }
    Ok(())
}

/// The output if the full history was divided so: yes, unless a shard is too large for a text.
fn division_output(alloc: Global, division: &Division) -> Result<Output, AllocError>
    ensures { IfOk result (λ o. o.status ≡ spec.status_by_counts division.now.counts.items) }
{
    let mut text = count_line(alloc, &division.counts)?;
    push_large_shards(&mut text, &division.counts)?;
    push_large_objects(&mut text, &division.large)?;
    let status = status_by_counts(&division.counts);
    Ok(Output { status, text })
}

/// What was written of a split, and how many maps each shard has: no numbers, if the history is
/// malformed.
#[derive(Drop)]
struct SplitOutput {
    output: Output,
    counts: Vec<u32>,
}

/// How a split ended: its exit status, and how many maps each shard has. If the history is
/// malformed there are no numbers.
#[derive(Drop)]
pub struct SplitEnd {
    pub status: u8,
    pub counts: Vec<u32>,
}

/// Divides a history, and returns the output.
fn split_output<F: Source, D: Folder>(
    alloc: Global,
    history: &mut F,
    folder: &mut D,
    shards: u16,
) -> Result<SplitOutput, SplitFailure>
    requires history { F.broken history.old ≡ false }
    requires folder { D.broken folder.old ≡ false }
    requires some { 0 < shards }
    ensures made { IfOk result (λ o. IsSplitOutput shards
        (F.remaining history.old) (F.remaining history.new)
        (D.files folder.old) (D.files folder.new) o.counts.items
        o.output.status o.output.text.items) }
    ensures few_shards { IfErr result (λ e. IsWhereTooFewShards shards e
        (F.remaining history.old) (F.remaining history.new)) }
{
    match split_over(alloc, history, folder, shards) {
        Ok(division) => Ok(SplitOutput {
            output: division_output(alloc, &division)?,
            counts: division.counts,
        }),
        Err(SplitFault::Malformed(fault)) => Ok(SplitOutput {
            output: malformed_output(alloc, fault)?,
            counts: Vec::new(alloc),
        }),
        Err(SplitFault::TooFewShards(object)) => Err(SplitFailure::TooFewShards(object)),
        Err(SplitFault::NoMemory) => Err(SplitFailure::NoMemory),
        Err(SplitFault::Read) => Err(SplitFailure::Unread),
        Err(SplitFault::Write) => Err(SplitFailure::Unwritten),
    }
}

/// Divides the history that a source gives among this many shards, writes how many maps they have,
/// and returns the exit status: 0; 2 if the history is malformed; 3 if a shard has more maps
/// than one text may have; 4 if the output failed. Only after 0 and 3 is it known that the
/// folder has all maps, and that each shard has the number of maps that is returned.
pub fn split_history<F: Source, D: Folder, S: Sink>(
    alloc: Global,
    history: &mut F,
    folder: &mut D,
    shards: u16,
    sink: &mut S,
) -> Result<SplitEnd, SplitFailure>
    requires history { F.broken history.old ≡ false }
    requires folder { D.broken folder.old ≡ false }
    requires working { S.broken sink.old ≡ false }
    requires some { 0 < shards }
    ensures divided { IfOk result (λ e.
        (e.status ≡ status_number Status.Yes) ⊎ (e.status ≡ status_number Status.Undecided) →
        (told : Division) × WasDivided shards told
        (F.remaining history.old) (F.remaining history.new)
        (D.files folder.old) (D.files folder.new) × (e.counts.items ≡ told.counts.items)) }
    ensures few_shards { IfErr result (λ e. IsWhereTooFewShards shards e
        (F.remaining history.old) (F.remaining history.new)) }
    ensures leaves { IfOk result (λ e. Leaves (IsSplitOutput shards
        (F.remaining history.old) (F.remaining history.new)
        (D.files folder.old) (D.files folder.new) e.counts.items)
        (S.sent sink.old) e.status (S.sent sink.new) (S.broken sink.new)) }
    ensures nothing_written { OnErr result (sink.new ≡ sink.old) }
{
    let done = split_output(alloc, history, folder, shards)?;
    let status = write_output(Ok(done.output), sink);
    Ok(SplitEnd {
        status,
        counts: done.counts,
    })
}

/// Reads and verifies all shards, or returns the one that cannot be read. Returns `None` if an
/// allocation fails.
fn merge_all<F: ShardFiles>(
    alloc: Global,
    files: &F,
    shards: u16,
    counts: &[u32],
    steps: u32,
) -> Result<Option<Merging>, UnreadShard>
    requires one_each { length counts.now ≡ shards }
    ensures { IfOk result (λ made. IfSome made (λ m. (all : List Shard)
        × (length all ≡ shards) × AreShardsRead (F.holds files.now) counts.now steps all
        × AreMerged m all)) }
{
    let mut merging = Merging::new(alloc);
    for shard in 0..shards {
        let texts = match files.read(alloc, shard) {
            Ok(texts) => texts,
            Err(ShardFault::Unread(file)) => return Err(UnreadShard { shard, file }),
            Err(ShardFault::NoMemory) => return Ok(None),
        };
        let ShardFileTexts {
            text,
            table,
            evidence,
        } = texts;
        let number = ShardNumber {
            number: shard,
            count: shards,
            maps: counts[usize::from(shard)],
        };
        let Ok(()) = merging.take(alloc, number, &text, &table, &evidence, steps) else {
            return Ok(None);
        };
    }
    Ok(Some(merging))
}

/// The output of a merge of the shards that are read.
fn merge_output<F: ShardFiles>(
    alloc: Global,
    files: &F,
    shards: u16,
    counts: &[u32],
    steps: u32,
) -> Result<Result<Output, AllocError>, UnreadShard>
    requires one_each { length counts.now ≡ shards }
    ensures { IfOk result (λ made. IfOk made (λ o.
        IsMergeOf (F.holds files.now) counts.now steps o.status o.text.items)) }
{
    match merge_all(alloc, files, shards, counts, steps)? {
        Some(merging) => Ok(merging.output(alloc)),
        None => Ok(Err(AllocError)),
    }
}

/// Verifies each of this many shards by its evidence, judges by them the full history, of which
/// they are a split, writes the lines, and returns the status of the worst finding on a shard, or 3
/// if an allocation failed, or 4 if the output failed. `counts` says how many maps each shard was
/// given by the split: a shard with another number of maps, as one whose files lost their last
/// lines, is malformed.
/// That `verify` of the full history ends with the same status is only tested. `steps` is the step
/// limit of searches for which the evidence names none.
pub fn merge_shards<F: ShardFiles, S: Sink>(
    alloc: Global,
    files: &F,
    shards: u16,
    counts: &[u32],
    steps: u32,
    sink: &mut S,
) -> Result<u8, UnreadShard>
    requires working { S.broken sink.old ≡ false }
    requires some { 0 < shards }
    requires one_each { length counts.now ≡ shards }
    ensures linearizable { IfOk result (λ number. number ≡ status_number Status.Yes →
        (whole : List ℕ) → FolderHoldsSplit (F.holds files.now) shards whole →
        IsLinearizableAtAnyLength whole) }
    ensures refuted { IfOk result (λ number. number ≡ status_number Status.No →
        (whole : List ℕ) → FolderHoldsSplit (F.holds files.now) shards whole →
        ¬ IsLinearizableAtAnyLength whole) }
    // So a folder whose texts lost their last lines leads to no false yes.
    ensures whole { IfOk result (λ number. number ≡ status_number Status.Yes →
        (whole : List ℕ) → FolderHoldsLines (F.holds files.now) counts.now whole →
        IsLinearizableAtAnyLength whole) }
    ensures counted { IfOk result (λ number. number ≡ status_number Status.Yes →
        AreMapsCounted (F.holds files.now) HasMaps counts.now) }
    ensures none_miscounted { IfOk result (λ number. number ≡ status_number Status.No →
        AreMapsCounted (F.holds files.now) HasMapsOrIsLarge counts.now) }
    ensures leaves { IfOk result (λ number. Leaves
        (IsMergeOfFolder (F.holds files.now) counts.now steps)
        (S.sent sink.old) number (S.sent sink.new) (S.broken sink.new)) }
    ensures nothing_written { OnErr result (sink.new ≡ sink.old) }
{
    let made = merge_output(alloc, files, shards, counts, steps)?;
    Ok(write_output(made, sink))
}
