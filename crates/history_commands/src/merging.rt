//! The merge of what is found of the shards of a history: the evidence on each shard is checked,
//! and the full history is judged by all of it. Nothing that comes from a worker is trusted.

ghost use Rattle.std.specs.Prelude.{◌++◌, ◌∷◌, [], List, IfOk, OnOk};
ghost use Rattle.history_commands.specs.Merged.{AnswersShard, AreMerged, IsMerge, Shard};
ghost use Rattle.history_commands.specs.Merged.{answer_seen};

use crate::finding::Finding;
use crate::object_lines::{ObjectLines, with_lines};
use crate::output::{Output, verdict_output};
use crate::shard_answer::{ShardAnswer, ShardNumber, answer_shard};
use crate::shard_counts::Counts;
use report::Verdict;
use std::alloc::{AllocError, Global};

/// The findings on the shards that were taken, and the lines on them.
#[derive(Drop)]
pub struct Merging {
    finding: Finding,
    notes: Vec<u8>,
    lines: Vec<ObjectLines>,
    counts: Counts,
}

impl Merging {
    /// No shard was taken.
    pub fn new(alloc: Global) -> Merging
        ensures { AreMerged result [] }
    {
        Merging {
            finding: Finding::Certified,
            notes: Vec::new(alloc),
            lines: Vec::new(alloc),
            counts: Counts::new(alloc),
        }
    }

    /// Adds the answer for one more shard.
    fn add(&mut self, answer: ShardAnswer) -> Result<(), AllocError>
        ensures { OnOk result ((shards : List Shard) (shard : Shard) → AreMerged self.old shards
            → AnswersShard shard (answer_seen answer) → AreMerged self.new (shards ++ shard ∷ [])) }
    {
        let ShardAnswer {
            finding,
            note,
            mut lines,
            counts,
        } = answer;
        self.finding = self.finding.worse(finding);
        self.notes.extend_from_slice(&note)?;
        self.lines.append(&mut lines)?;
        self.counts.add(&counts)
    }

    /// Takes one more shard: its number, its text, its table, and evidence on it, which may be any
    /// bytes. The evidence has the numbers of events in the full history, and the names of objects
    /// in the shard; the lines have those of the full history. A search for which a claim names no
    /// number of steps has the limit `steps`. No evidence is the empty text, which claims nothing.
    /// A text that has another number of maps than the shard was given counts as malformed.
    ///
    /// An error: an allocation failed, and no clause says what is known afterwards.
    pub fn take(
        &mut self,
        alloc: Global,
        shard: ShardNumber,
        text: &[u8],
        table: &[u8],
        evidence: &[u8],
        steps: u32,
    ) -> Result<(), AllocError>
        ensures { OnOk result ((shards : List Shard) → AreMerged self.old shards
            → AreMerged self.new (shards ++ (record {
              number = shard.number;
              count = shard.count;
              maps = shard.maps;
              text = text.now;
              table = table.now;
              evidence = evidence.now;
              limit = steps;
            }) ∷ [])) }
    {
        self.add(answer_shard(alloc, shard, text, table, evidence, steps)?)
    }

    /// Returns the answer on the shards that were taken, which is one on the full history if these
    /// are all its shards. It is malformed if a shard is, otherwise no if an object is impossible,
    /// otherwise yes if each object of each shard has an order.
    pub fn output(self, alloc: Global) -> Result<Output, AllocError>
        ensures { (shards : List Shard) → AreMerged self shards
            → IfOk result (λ o. IsMerge shards o.status o.text.items) }
    {
        let Merging {
            finding,
            notes,
            lines,
            counts,
        } = self;
        match finding {
            Finding::Certified => verdict_output(alloc, &Verdict::Yes(counts.into_summary(alloc)?)),
            Finding::Malformed => Ok(Output {
                status: finding.status(),
                text: notes,
            }),
            Finding::Undecided | Finding::Refuted => Ok(Output {
                status: finding.status(),
                text: with_lines(notes, lines)?,
            }),
        }
    }
}
