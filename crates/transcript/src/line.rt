//! The lines of a record, in memory.

ghost use Rattle.std.specs.Prelude.{◌≡◌, ◌<◌, ◌^◌, ◌++◌, All, OnOk, IfOk, map, length};
ghost use Rattle.desk_model.specs.World.{ticket_of};
ghost use Rattle.desk_model.specs.Images.{event_in, answer_in};
ghost use Rattle.events.specs.Events.{IsProper};
ghost use Rattle.recorder.specs.Histories as recorder;
ghost use Rattle.recorder.specs.Histories.{AreEventsOf, IsRecordOf, journals_in, max_tickets};
ghost use Rattle.transcript.specs.Lines as spec;
ghost use Rattle.transcript.specs.Lines.{AreLinesOf, events_in};

use events::{Action, Event};
use recorder::{Answer, JournalEvent, Record};
use seq_objects::{AnyOp, SeqObject};
use std::alloc::{AllocError, Global};

/// A call of a client: its object and its operation.
#[derive(Clone, Copy)]
pub(crate) struct Call {
    pub object: u32,
    pub op: AnyOp,
}

/// A client event, and the operation of its call.
#[derive(Clone, Copy)]
pub(crate) struct Line {
    pub event: Event,
    pub op: AnyOp,
}

/// What the answer says about its operation.
fn action_of<S: SeqObject>(answer: &Answer<S::Reply>) -> Action
    ensures { result ≡ recorder.action_of (answer_in S.reply_in answer.now) }
{
    match answer {
        Answer::Reply(reply) => Action::Ok(S::any_reply(reply)),
        Answer::Refused => Action::Fail,
    }
}

/// The call that the event begins, or else the last one.
fn call_after<S: SeqObject>(
    last: Option<Call>,
    event: &JournalEvent<S::Op, S::Reply>,
) -> Option<Call>
    ensures { result ≡ spec.call_after last (event_in S.op_in S.reply_in event.now) }
{
    match event {
        JournalEvent::Invoked { object, op, .. } => Some(Call {
            object: *object,
            op: S::any_op(op),
        }),
        JournalEvent::Returned { .. } => last,
    }
}

/// An event of the client, whose call is on the object.
fn event_with<S: SeqObject>(
    client: usize,
    object: u32,
    event: &JournalEvent<S::Op, S::Reply>,
) -> Event
    requires { ticket_of (event_in S.op_in S.reply_in event.now) < max_tickets }
    ensures { result ≡ spec.event_of_journal client object (event_in S.op_in S.reply_in event.now) }
{
    let process = client as u64;
    match event {
        JournalEvent::Invoked { ticket, object, op } => Event {
            number: *ticket as u32,
            process,
            object: *object,
            action: Action::Invoke(S::any_op(op)),
        },
        JournalEvent::Returned { ticket, answer } => Event {
            number: *ticket as u32,
            process,
            object,
            action: action_of::<S>(answer),
        },
    }
}

/// Puts the line of an event of this call after the others, or nothing if there is no call.
fn push_line<S: SeqObject>(
    client: usize,
    event: &JournalEvent<S::Op, S::Reply>,
    call: Option<Call>,
    lines: &mut Vec<Line>,
) -> Result<(), AllocError>
    requires { ticket_of (event_in S.op_in S.reply_in event.now) < max_tickets }
    ensures { OnOk result (lines.new.items ≡ lines.old.items
        ++ spec.line_with client (event_in S.op_in S.reply_in event.now) call) }
{
    if let Some(Call { object, op }) = call {
        let event = event_with::<S>(client, object, event);
        lines.push(Line { event, op })?;
    }
    Ok(())
}

/// Puts the lines of a client's journal after the others.
fn push_journal<S: SeqObject>(
    client: usize,
    journal: &[JournalEvent<S::Op, S::Reply>],
    lines: &mut Vec<Line>,
) -> Result<(), AllocError>
    requires { All (λ e. ticket_of (event_in S.op_in S.reply_in e) < max_tickets) journal.now }
    ensures { OnOk result (lines.new.items ≡ lines.old.items
        ++ spec.journal_lines client (map (event_in S.op_in S.reply_in) journal.now)) }
{
    let mut last = None;
    for event in journal {
        last = call_after::<S>(last, event);
        push_line::<S>(client, event, last, lines)?;
    }
    Ok(())
}

/// The lines of all journals, client by client.
fn gather<S: SeqObject>(alloc: Global, recorded: &Record<S>) -> Result<Vec<Line>, AllocError>
    ensures lines { IfOk result (λ v.
        v.items ≡ spec.lines_in 0 (map (map (event_in S.op_in S.reply_in)) recorded.now.journals)) }
    ensures few { length recorded.now.journals < 2 ^ 63 }
    ensures kept { IsRecordOf S.op_in S.reply_in recorded.now }
{
    let mut lines = Vec::new(alloc);
    for (client, journal) in recorded.journals().iter().enumerate() {
        push_journal::<S>(client, journal.as_slice(), &mut lines)?;
    }
    Ok(lines)
}

/// The lines of the record, in order of tickets.
pub(crate) fn lines_of<S: SeqObject>(
    alloc: Global,
    recorded: &Record<S>,
) -> Result<Vec<Line>, AllocError>
    ensures lines { IfOk result (λ v. AreLinesOf
        (journals_in S.op_in S.reply_in recorded.now) v.items) }
    ensures events { IfOk result (λ v.
        AreEventsOf (journals_in S.op_in S.reply_in recorded.now) (events_in v.items)) }
    ensures proper { IfOk result (λ v. IsProper (events_in v.items)) }
    ensures low { IfOk result (λ v. All (λ l. l.event.process < 2 ^ 63) v.items) }
    ensures kept { IsRecordOf S.op_in S.reply_in recorded.now }
{
    let mut lines = gather(alloc, recorded)?;
    lines.sort_unstable_by_key(|line| line.event.number);
    Ok(lines)
}
