//! The record of clients and objects.

ghost use Rattle.std.specs.Prelude.{◌≡◌, ◌<◌, length};
ghost use Rattle.recorder.specs.Records.{journal_at, log_at};

use desk_model::{JournalEvent, LogEntry};
use seq_objects::SeqObject;
use std::marker::Model;

/// The journals of the clients and the logs of the objects, each by number. No ticket is in the
/// journals twice, all tickets are below 640,000, each object that a journal names has a log, and
/// in order of tickets the events of the journals are a proper history.
#[derive(Drop)]
pub struct Record<S: SeqObject> {
    journals: Vec<Vec<JournalEvent<S::Op, S::Reply>>>,
    logs: Vec<Vec<LogEntry<S::Op, S::Reply>>>,
}

impl<S: SeqObject> Model for Record<S> {
    ghost use Rattle.std.specs.Prelude.{length};
    ghost use Rattle.recorder.specs.Records.{Recorded, recorded};
    ghost use Rattle.recorder.specs.Histories.{IsRecordOf};

    ghost Value = { Recorded S.Op S.Reply };

    ghost view = { λ r. recorded r.journals.items r.logs.items };

    ghost invariant = { λ r. IsRecordOf S.op_in S.reply_in
        (recorded r.journals.items r.logs.items) };
}

impl<S: SeqObject> Record<S> {
    ghost use Rattle.recorder.specs.Records.{items_of_each, recorded};
    ghost use Rattle.recorder.specs.Histories.{IsRecordOf};

    /// Makes a record of these journals and logs.
    pub fn new(
        journals: Vec<Vec<JournalEvent<S::Op, S::Reply>>>,
        logs: Vec<Vec<LogEntry<S::Op, S::Reply>>>,
    ) -> Record<S>
        requires kept { IsRecordOf S.op_in S.reply_in (recorded journals.items logs.items) }
        ensures { result ≡ recorded journals.items logs.items }
    {
        Record { journals, logs }
    }

    /// The journals, by client.
    pub fn journals(&self) -> &[Vec<JournalEvent<S::Op, S::Reply>>]
        ensures journals { items_of_each result.now ≡ self.now.journals }
        ensures kept { IsRecordOf S.op_in S.reply_in self.now }
    {
        self.journals.as_slice()
    }

    /// How many clients there are.
    pub fn clients(&self) -> usize
        ensures { result ≡ length self.now.journals }
    {
        self.journals.len()
    }

    /// How many objects there are.
    pub fn objects(&self) -> usize
        ensures { result ≡ length self.now.logs }
    {
        self.logs.len()
    }

    /// What the client did, in order.
    pub fn journal(&self, client: u32) -> &[JournalEvent<S::Op, S::Reply>]
        requires { client < length self.now.journals }
        ensures { result.now ≡ journal_at self.now client }
    {
        self.journals[client as usize].as_slice()
    }

    /// The operations that were done on the object, in order.
    pub fn log(&self, object: u32) -> &[LogEntry<S::Op, S::Reply>]
        requires { object < length self.now.logs }
        ensures { result.now ≡ log_at self.now object }
    {
        self.logs[object as usize].as_slice()
    }
}
