//! The history of a record, and its certificates.

ghost use Rattle.std.specs.Prelude.{◌≡◌, ◌≢◌, ◌<◌, ℕ, List, All, IfOk, IfErr, OnOk, map};
ghost use Rattle.model.specs.declared.Kind.{Kind};
ghost use Rattle.desk_model.specs.Images.{entry_in};
ghost use Rattle.desk_model.specs.Records as world;
ghost use Rattle.desk_model.specs.Records.{IsSoundRecord};
ghost use Rattle.recorder.specs.Histories.{AreEventsOf, IsRecordOf, journals_in, logs_in};
ghost use Rattle.recorder.specs.Histories.{max_tickets};
ghost use Rattle.checker.specs.declared.refusal.Refusal.{Refusal};
ghost use Rattle.transcript.specs.Lines as spec;
ghost use Rattle.transcript.specs.Accounts.{AreCertificatesOf, IsAccepted, IsRecordRefused};
ghost use Rattle.transcript.specs.Written.{IsHistoryText};

use crate::line::{Line, lines_of};
use crate::text::history_text;
use certificate::Certificate;
use checker::{Refusal, check_all};
use events::{Event, History, split};
use recorder::{LogEntry, Record};
use seq_objects::SeqObject;
use std::alloc::{AllocError, Global};

/// The events of the lines.
fn events_in(alloc: Global, lines: &[Line]) -> Result<Vec<Event>, AllocError>
    ensures { IfOk result (λ v. v.items ≡ spec.events_in lines.now) }
{
    lines.iter().map(|line| line.event).collect(alloc)
}

/// Returns the history of a record: the event of each ticket, in order of tickets. A client is a
/// process, and its number that of the process; a ticket is the number of its event; and a call in
/// which an allocation failed is one that did not happen.
pub fn history<S: SeqObject>(alloc: Global, recorded: &Record<S>) -> Result<History, AllocError>
    ensures history { IfOk result (AreEventsOf (journals_in S.op_in S.reply_in recorded.now)) }
    ensures kept { IsRecordOf S.op_in S.reply_in recorded.now }
{
    let lines = lines_of(alloc, recorded)?;
    let events = events_in(alloc, &lines)?;
    Ok(History::new(events))
}

/// The tickets of a log.
fn order_of<S: SeqObject>(
    alloc: Global,
    log: &[LogEntry<S::Op, S::Reply>],
) -> Result<Vec<i64>, AllocError>
    requires { All (λ e. e.ticket < max_tickets) log.now }
    ensures { IfOk result (λ v. v.items ≡ world.order_of
        (map (entry_in S.op_in S.reply_in) log.now)) }
{
    let mut order = Vec::new(alloc);
    for entry in log {
        order.push(entry.ticket as i64)?;
    }
    Ok(order)
}

/// The certificates of a record whose history is this.
fn certificates_by<S: SeqObject>(
    alloc: Global,
    recorded: &Record<S>,
    history: &History,
) -> Result<Vec<Certificate>, AllocError>
    requires kept { IsRecordOf S.op_in S.reply_in recorded.now }
    requires history { AreEventsOf (journals_in S.op_in S.reply_in recorded.now) history.now }
    ensures { IfOk result (λ v.
        AreCertificatesOf (journals_in S.op_in S.reply_in recorded.now)
        (logs_in S.op_in S.reply_in recorded.now) v.items) }
{
    let objects = split(alloc, history)?;
    let mut certificates = Vec::new(alloc);
    for named in &objects {
        let object = named.object();
        let order = order_of::<S>(alloc, recorded.log(object))?;
        certificates.push(Certificate { object, order })?;
    }
    Ok(certificates)
}

/// Returns a certificate for each object that some call names, in rising order of objects: the
/// tickets of its log.
pub fn certificates<S: SeqObject>(
    alloc: Global,
    recorded: &Record<S>,
) -> Result<Vec<Certificate>, AllocError>
    ensures { IfOk result (λ v.
        AreCertificatesOf (journals_in S.op_in S.reply_in recorded.now)
        (logs_in S.op_in S.reply_in recorded.now) v.items) }
{
    let history = history(alloc, recorded)?;
    certificates_by(alloc, recorded, &history)
}

/// What a record says, for which its events are gathered and sorted once.
#[derive(Drop)]
pub struct Account {
    /// The history.
    pub history: History,
    /// The certificates, one for each object that some call names.
    pub certificates: Vec<Certificate>,
    /// The text of the history.
    pub text: Vec<u8>,
}

/// Returns the history, the certificates and the text of the history of a record, as `history`,
/// `certificates` and `write_history` make them one by one.
pub fn account_of<S: SeqObject>(alloc: Global, recorded: &Record<S>) -> Result<Account, AllocError>
    ensures history { IfOk result (λ a.
        AreEventsOf (journals_in S.op_in S.reply_in recorded.now) a.history) }
    ensures certificates { IfOk result (λ a.
        AreCertificatesOf (journals_in S.op_in S.reply_in recorded.now)
        (logs_in S.op_in S.reply_in recorded.now) a.certificates.items) }
    ensures text { IfOk result (λ a.
        IsHistoryText (journals_in S.op_in S.reply_in recorded.now) a.text.items) }
{
    let lines = lines_of(alloc, recorded)?;
    let text = history_text(alloc, &lines)?;
    let events = events_in(alloc, &lines)?;
    let history = History::new(events);
    let certificates = certificates_by(alloc, recorded, &history)?;
    Ok(Account {
        history,
        certificates,
        text,
    })
}

/// Checks the record's history with its certificates. If the record is sound they are accepted,
/// unless an allocation fails. Tests call it; `run` and `simulate` check what `account_of` gathers
/// by `check_all`.
pub fn check_record<S: SeqObject>(alloc: Global, recorded: &Record<S>) -> Result<(), Refusal>
    ensures accepted { (kinds : List Kind) (quota : ℕ)
        → IsSoundRecord kinds quota (journals_in S.op_in S.reply_in recorded.now)
        (logs_in S.op_in S.reply_in recorded.now)
        → IfErr result (λ e. e ≡ Refusal.NoMemory) }
    ensures checked { IfErr result (λ e. e ≢ Refusal.NoMemory →
        IsRecordRefused (journals_in S.op_in S.reply_in recorded.now)
        (logs_in S.op_in S.reply_in recorded.now) e) }
    ensures valid { OnOk result
        (IsAccepted (journals_in S.op_in S.reply_in recorded.now)
        (logs_in S.op_in S.reply_in recorded.now)) }
{
    let Ok(history) = history(alloc, recorded) else {
        return Err(Refusal::NoMemory);
    };
    let Ok(certificates) = certificates(alloc, recorded) else {
        return Err(Refusal::NoMemory);
    };
    check_all(alloc, &history, &certificates)
}
