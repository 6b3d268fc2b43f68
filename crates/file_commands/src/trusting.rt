//! `merge --trust-statuses`: a full history is judged by the exit statuses of workers on other
//! machines, one for each shard. Nothing is checked, and the first line says so.

ghost use Rattle.std.specs.Prelude.{◌≡◌, ◌<◌, ◌++◌, ◌∷◌, ℕ, [], List, Option, false, length};
ghost use Rattle.std.specs.Prelude.{IfOk, IfSome, OnErr, OnOk};
ghost use Rattle.history_commands.specs.Merged.{status_with};
ghost use Rattle.history_commands.specs.Outputs.{IsExactly, status_number};
ghost use Rattle.file_commands.specs.Trusted as spec;
ghost use Rattle.file_commands.specs.Trusted.{AreTrusted, AreStatusesRead, IsTrustedOf};
ghost use Rattle.file_commands.specs.Trusted.{IsTrustedOfFolder, IsEachNoRight, IsEachYesRight};
ghost use Rattle.file_commands.specs.Trusted.{trusted_text, finding_by};
ghost use Rattle.file_commands.specs.Leaves.{Leaves};
ghost use Rattle.file_commands.specs.Sharded.{AreShardsOf};
ghost use Rattle.shards.specs.Dividing.{Files};
ghost use Rattle.shards.specs.ShardTexts.{IsLinearizableAtAnyLength};

use crate::folders::{ShardFault, UnreadShard};
use crate::written::write_output;
use edn::{Sink, push_natural};
use history_commands::{Finding, Output, Status, text_with_number};
use std::alloc::{AllocError, Global};

/// Where the exit statuses of workers are read.
pub trait StatusFiles {
    /// What the file with the exit status of a shard may hold: these bytes, or it is not there.
    ghost holds: { Self → ℕ → Option (List ℕ) → Type 0 };

    fn read_status(&self, alloc: Global, shard: u16) -> Result<Option<Vec<u8>>, ShardFault>
        ensures { IfOk result (λ read. holds self.now shard (spec.bytes_read read)) };
}

/// What the text of a status says of its shard.
fn said_by(text: &[u8]) -> Option<Finding>
    ensures { result ≡ spec.said_by text.now }
{
    if text == "0\n".as_bytes() {
        Some(Finding::Certified)
    } else if text == "1\n".as_bytes() {
        Some(Finding::Refuted)
    } else if text == "2\n".as_bytes() {
        Some(Finding::Malformed)
    } else if text == "3\n".as_bytes() {
        Some(Finding::Undecided)
    } else {
        None
    }
}

/// The finding that a status file states, if any.
fn said_of(read: &Option<Vec<u8>>) -> Option<Finding>
    ensures { result ≡ spec.said_of (spec.bytes_read read.now) }
{
    match read {
        Some(text) => said_by(text),
        None => None,
    }
}

fn push_status_line(lines: &mut Vec<u8>, shard: u16, end: &[u8]) -> Result<(), AllocError>
    ensures { OnOk result (lines.new.items ≡ lines.old.items ++ spec.status_line shard end.now) }
{
    lines.extend_from_slice(b"; shard ")?;
    push_natural(lines, u64::from(shard))?;
    lines.extend_from_slice(end)
}

/// Appends the line of a shard, unless it is a yes.
fn push_line(lines: &mut Vec<u8>, shard: u16, said: Option<Finding>) -> Result<(), AllocError>
    ensures { OnOk result (lines.new.items ≡ lines.old.items ++ spec.said_line shard said) }
{
    match said {
        Some(Finding::Certified) => Ok(()),
        Some(Finding::Refuted) => push_status_line(lines, shard, b": no\n"),
        Some(Finding::Malformed) => push_status_line(lines, shard, b": malformed\n"),
        Some(Finding::Undecided) => push_status_line(lines, shard, b": undecided\n"),
        None => push_status_line(lines, shard, b": no status\n"),
    }
}

/// Appends the line of a yes, if it is one.
fn push_last_line(text: &mut Vec<u8>, shards: u16, finding: Finding) -> Result<(), AllocError>
    ensures { OnOk result (text.new.items ≡ text.old.items ++ spec.last_line shards finding) }
{
    match finding {
        Finding::Certified => {
            text.extend_from_slice(b"yes by statuses: ")?;
            push_natural(text, u64::from(shards))?;
            text.extend_from_slice(b" shards\n")
        }
        Finding::Undecided | Finding::Refuted | Finding::Malformed => Ok(()),
    }
}

/// The finding of the shards whose statuses were taken, and the lines on them.
#[derive(Drop)]
struct Trusted {
    finding: Finding,
    lines: Vec<u8>,
}

impl Trusted {
    /// No status was taken.
    fn new(alloc: Global) -> Trusted
        ensures { AreTrusted result [] }
    {
        Trusted {
            finding: Finding::Certified,
            lines: Vec::new(alloc),
        }
    }

    /// Takes what was read of the status of the next shard, which has this number.
    fn take(&mut self, shard: u16, read: &Option<Vec<u8>>) -> Result<(), AllocError>
        ensures { OnOk result ((all : List (Option (List ℕ))) → AreTrusted self.old all
            → length all ≡ shard → AreTrusted self.new (all ++ spec.bytes_read read.now ∷ [])) }
    {
        let said = said_of(read);
        let finding = said.unwrap_or(Finding::Undecided);
        self.finding = self.finding.worse(finding);
        push_line(&mut self.lines, shard, said)
    }

    /// The output if the statuses of this many shards were taken.
    fn output(&self, alloc: Global, shards: u16) -> Result<Output, AllocError>
        ensures { (all : List (Option (List ℕ))) → AreTrusted self.now all → IfOk result (λ o.
            IsExactly (status_with (finding_by all)) (trusted_text shards all)
            o.status o.text.items) }
    {
        let mut text = text_with_number(
            alloc,
            b"; not checked: the exit statuses of ",
            u64::from(shards),
            b" shards are believed\n",
        )?;
        text.extend_from_slice(&self.lines)?;
        push_last_line(&mut text, shards, self.finding)?;
        Ok(Output {
            status: self.finding.status(),
            text,
        })
    }
}

/// The finding of the shards, the status of each of which is read, or cannot be read. None: an
/// allocation failed.
fn trust_all<F: StatusFiles>(
    alloc: Global,
    files: &F,
    shards: u16,
) -> Result<Option<Trusted>, UnreadShard>
    ensures { IfOk result (λ made. IfSome made (λ b. (all : List (Option (List ℕ)))
        × (length all ≡ shards) × AreStatusesRead (F.holds files.now) all
        × AreTrusted b all)) }
{
    let mut trusted = Trusted::new(alloc);
    for shard in 0..shards {
        let read = match files.read_status(alloc, shard) {
            Ok(read) => read,
            Err(ShardFault::Unread(file)) => return Err(UnreadShard { shard, file }),
            Err(ShardFault::NoMemory) => return Ok(None),
        };
        let Ok(()) = trusted.take(shard, &read) else {
            return Ok(None);
        };
    }
    Ok(Some(trusted))
}

/// The output of a merge of the statuses that are read.
fn trusted_output<F: StatusFiles>(
    alloc: Global,
    files: &F,
    shards: u16,
) -> Result<Result<Output, AllocError>, UnreadShard>
    ensures { IfOk result (λ made. IfOk made (λ o.
        IsTrustedOf (F.holds files.now) shards o.status o.text.items)) }
{
    match trust_all(alloc, files, shards)? {
        Some(trusted) => Ok(trusted.output(alloc, shards)),
        None => Ok(Err(AllocError)),
    }
}

/// Judges the full history, of which this many shards are a split, by the exit status that `judge`
/// returned for each shard, and trusts it. Writes that nothing was checked, a line for each shard
/// that is not a yes, and one for a yes. Returns 2 if a status is 2, otherwise 1 if one is 1,
/// otherwise 3 if one is 3 or missing, otherwise 0; also 3 if an allocation failed, and 4 if the
/// output failed. A file that is none of the digits 0 to 3 counts as missing.
pub fn merge_statuses<F: StatusFiles, S: Sink>(
    alloc: Global,
    files: &F,
    shards: u16,
    sink: &mut S,
) -> Result<u8, UnreadShard>
    requires working { S.broken sink.old ≡ false }
    requires some { 0 < shards }
    ensures linearizable { IfOk result (λ number. number ≡ status_number Status.Yes →
        (whole : List ℕ) (divided : Files) → AreShardsOf shards whole divided →
        IsEachYesRight (F.holds files.now) shards divided → IsLinearizableAtAnyLength whole) }
    ensures refuted { IfOk result (λ number. number ≡ status_number Status.No →
        (whole : List ℕ) (divided : Files) → AreShardsOf shards whole divided →
        IsEachNoRight (F.holds files.now) shards divided → ¬ IsLinearizableAtAnyLength whole) }
    ensures leaves { IfOk result (λ number. Leaves (IsTrustedOfFolder (F.holds files.now) shards)
        (S.sent sink.old) number (S.sent sink.new) (S.broken sink.new)) }
    ensures nothing_written { OnErr result (sink.new ≡ sink.old) }
{
    let made = trusted_output(alloc, files, shards)?;
    Ok(write_output(made, sink))
}
