//! The answer for one shard of a history. Its text, its table and the evidence on it may be any
//! bytes: all are checked.

ghost use Rattle.std.specs.Prelude.{◌≡◌, IfOk, MatchBool};
ghost use Rattle.history_commands.specs.Merged as spec;
ghost use Rattle.history_commands.specs.Merged.{AnswersClaims, AnswersCounted};
ghost use Rattle.history_commands.specs.Merged.{AnswersEvidence, AnswersFault, AnswersShard};
ghost use Rattle.history_commands.specs.Merged.{AnswersTable, IsNoted, IsTooLarge};
ghost use Rattle.history_commands.specs.Merged.{finding_on, answer_seen};
ghost use Rattle.shards.specs.Dividing.{object_named};

use crate::answers::{are_all_found, is_any_impossible};
use crate::finding::Finding;
use crate::lines::text_with_number;
use crate::object_lines::{ObjectLines, lines_of};
use crate::output::verdict_output;
use crate::shard_counts::Counts;
use crate::verification::refuse_evidence;
use edn::{FaultKind, push_natural};
use history::{History, HistoryFaultKind};
use locality::named_objects;
use reading::{TextFailure, history_of_text};
use report::{Fault, Verdict};
use shards::{TableFault, with_table};
use std::alloc::{AllocError, Global};
use verifying::{Claim, Decision, decide_by_claims, read_claims_text};

/// Which shard it is: its number, how many there are, and how many maps this one was given.
#[derive(Clone, Copy, Debug, PartialEq, Eq)]
pub struct ShardNumber {
    pub number: u16,
    pub count: u16,
    pub maps: u32,
}

/// The answer for a shard.
#[derive(Drop)]
pub(crate) struct ShardAnswer {
    pub(crate) finding: Finding,
    /// A line on the shard, or nothing.
    pub(crate) note: Vec<u8>,
    /// The lines on its objects that have no order.
    pub(crate) lines: Vec<ObjectLines>,
    /// What its history has, if it is decided.
    pub(crate) counts: Counts,
}

/// A line on a shard.
fn shard_line(alloc: Global, shard: u16, said: &[u8]) -> Result<Vec<u8>, AllocError>
    ensures { IfOk result (λ v. v.items ≡ spec.shard_line shard said.now) }
{
    let mut line = text_with_number(alloc, b"shard ", u64::from(shard), b": ")?;
    line.extend_from_slice(said)?;
    Ok(line)
}

/// The answer for a shard on which nothing is decided, with a line that says why.
fn noted(
    alloc: Global,
    shard: u16,
    finding: Finding,
    said: &[u8],
) -> Result<ShardAnswer, AllocError>
    ensures { IfOk result (λ a. IsNoted shard finding said.now (answer_seen a)) }
{
    Ok(ShardAnswer {
        finding,
        note: shard_line(alloc, shard, said)?,
        lines: Vec::new(alloc),
        counts: Counts::new(alloc),
    })
}

/// Whether the text has too many bytes or maps for a history.
fn is_too_large(fault: &Fault) -> bool
    ensures { MatchBool result (IsTooLarge fault.now) (¬ (IsTooLarge fault.now)) }
{
    match fault {
        Fault::HistoryText(e) => matches!(e.kind, FaultKind::TooLong),
        Fault::HistoryMaps(f) => matches!(f.kind, HistoryFaultKind::TooMany),
        Fault::CertificateText(_) | Fault::CertificateForms(_) => false,
    }
}

/// The answer for a shard whose text has this fault.
fn answer_fault(alloc: Global, shard: u16, fault: Fault) -> Result<ShardAnswer, AllocError>
    ensures { IfOk result (λ a. AnswersFault shard fault (answer_seen a)) }
{
    if is_too_large(&fault) {
        return noted(alloc, shard, Finding::Undecided, b"too large\n");
    }
    let output = verdict_output(alloc, &Verdict::Malformed(fault))?;
    noted(alloc, shard, Finding::Malformed, &output.text)
}

/// What the decisions on all objects of a shard show.
fn finding_of(decisions: &[(u32, Decision)]) -> Finding
    ensures { result ≡ finding_on decisions.now }
{
    if is_any_impossible(decisions) {
        Finding::Refuted
    } else if are_all_found(decisions) {
        Finding::Certified
    } else {
        Finding::Undecided
    }
}

/// Checks claims on the history of a shard.
fn answer_claims(
    alloc: Global,
    shard: ShardNumber,
    history: &History,
    claims: Vec<Claim>,
    steps: u32,
) -> Result<ShardAnswer, AllocError>
    ensures { IfOk result (λ a. AnswersClaims (object_named shard.count shard.number) history.now
        claims.items steps (answer_seen a)) }
{
    // Two calls for their contracts alone: valid certificates suffice.
    history.events();
    named_objects();
    let decisions = decide_by_claims(alloc, history, claims, u64::from(steps))?;
    Ok(ShardAnswer {
        finding: finding_of(&decisions),
        note: Vec::new(alloc),
        lines: lines_of(alloc, shard, history, decisions)?,
        counts: Counts::of(alloc, history)?,
    })
}

/// Checks evidence on the history of a shard.
fn answer_evidence(
    alloc: Global,
    shard: ShardNumber,
    history: &History,
    evidence: &[u8],
    steps: u32,
) -> Result<ShardAnswer, AllocError>
    ensures { IfOk result (λ a. AnswersEvidence shard.number
        (object_named shard.count shard.number) history.now evidence.now steps (answer_seen a)) }
{
    match read_claims_text(alloc, evidence) {
        Ok(claims) => answer_claims(alloc, shard, history, claims, steps),
        Err(fault) => {
            let output = refuse_evidence(alloc, fault)?;
            noted(alloc, shard.number, Finding::Undecided, &output.text)
        }
    }
}

/// Gives the events of a shard their numbers in the full history, and then checks the evidence.
fn answer_history(
    alloc: Global,
    shard: ShardNumber,
    history: History,
    table: &[u8],
    evidence: &[u8],
    steps: u32,
) -> Result<ShardAnswer, AllocError>
    ensures { IfOk result (λ a.
        AnswersTable shard.number (object_named shard.count shard.number) history table.now
        evidence.now steps (answer_seen a)) }
{
    match with_table(alloc, history, table) {
        Ok(history) => answer_evidence(alloc, shard, &history, evidence, steps),
        Err(TableFault::Misfit) => {
            noted(
                alloc,
                shard.number,
                Finding::Malformed,
                b"its table does not fit\n",
            )
        }
        Err(TableFault::NoMemory) => Err(AllocError),
    }
}

/// What is said of a shard with this number of maps, if it was given another number.
fn miscounted(alloc: Global, maps: usize, given: u32) -> Result<Vec<u8>, AllocError>
    ensures { IfOk result (λ v. v.items ≡ spec.miscounted maps given) }
{
    let mut said = text_with_number(alloc, b"it has ", maps as u64, b" maps, and not ")?;
    push_natural(&mut said, u64::from(given))?;
    said.extend_from_slice(b"\n")?;
    Ok(said)
}

/// Checks a shard that has this history, unless it has another number of maps than it was given.
fn answer_counted(
    alloc: Global,
    shard: ShardNumber,
    history: History,
    table: &[u8],
    evidence: &[u8],
    steps: u32,
) -> Result<ShardAnswer, AllocError>
    ensures { IfOk result (λ a. AnswersCounted shard.number shard.maps
        (object_named shard.count shard.number) history table.now evidence.now steps
        (answer_seen a)) }
{
    let maps = history.events().len();
    if maps as u64 != u64::from(shard.maps) {
        let said = miscounted(alloc, maps, shard.maps)?;
        return noted(alloc, shard.number, Finding::Malformed, &said);
    }
    answer_history(alloc, shard, history, table, evidence, steps)
}

/// Checks a shard: its text, its table, and the evidence on it.
pub(crate) fn answer_shard(
    alloc: Global,
    shard: ShardNumber,
    text: &[u8],
    table: &[u8],
    evidence: &[u8],
    steps: u32,
) -> Result<ShardAnswer, AllocError>
    ensures { IfOk result (λ a. AnswersShard (record {
      number = shard.number;
      count = shard.count;
      maps = shard.maps;
      text = text.now;
      table = table.now;
      evidence = evidence.now;
      limit = steps;
    }) (answer_seen a)) }
{
    match history_of_text(alloc, text) {
        Ok(history) => answer_counted(alloc, shard, history, table, evidence, steps),
        Err(TextFailure::Faulty(fault)) => answer_fault(alloc, shard.number, fault),
        Err(TextFailure::NoMemory) => Err(AllocError),
    }
}
