//! The end of a client, and of the desk.

ghost use Rattle.std.specs.Prelude.{◌≡◌, ◌≢◌, ℕ, ◌+◌, ◌<◌, ◌≤◌, ◌∷◌, [], All, false, length};
ghost use Rattle.std.specs.Prelude.{slice_index_or, vec_len, vec_capacity, IfOk, IfErr, IfSome};
ghost use Rattle.std.specs.Prelude.{IfNone, if◌then◌else◌};
ghost use Rattle.recorder.specs.Records.{items_of_each};
ghost use Rattle.desk_invariant.specs.Views.{after_end_seen, after_end_unset, end_notice};
ghost use Rattle.desk_invariant.specs.Views.{after_notice, first_end, journal_slot, table_slots};
ghost use Rattle.publication.specs.Handles.{IsRoom};
ghost use Rattle.publication.specs.Calls.{IsClosedRecord, IsStillThere};
ghost use Rattle.publication.specs.Closing.{values_of, IsTakenTo, HasCore, HasJournal, IsLogOf};
ghost use Rattle.publication.specs.Closing.{IsJournalOf, AreLogs, AreJournals, IsSameBelow};
ghost use Rattle.publication.specs.Closing.{HaveEnded, HasLearntEnds};
ghost use Rattle.desk_model.specs.Limits.{max_objects, max_clients};

use crate::client::{Client, Place};
use crate::desk::{Desk, FIRST_END};
use crate::new_desk::SLOTS;
use crate::plays::{Ends, SeesEnd, SendsEnd, TakesNotice};
use desk_invariant::{Journal, Slot};
use recorder::{JournalEvent, LogEntry, Record};
use seq_objects::SeqObject;
use std::alloc::Global;
use std::marker::Model;

type Left<S, O, R> = atomic_table::Closed<Slot<S, O, R>, Global>;

/// The message that a client has retired: `tell` gives it to the client that closes the desk.
#[derive(Drop)]
pub struct Retired<S: SeqObject> {
    seat: Place<S, S::Op, S::Reply>,
}

impl<S: SeqObject> Model for Retired<S> {
    ghost use Rattle.std.specs.Prelude.{◌≡◌, []};
    ghost use Rattle.publication.specs.Handles.{Notice};

    ghost Value = { Notice };

    ghost view = { λ r. record { table = r.seat.table_id; left = r.seat.me.0.left } };

    ghost invariant = { λ r. r.seat.me.1 ≡ [] };
}

/// A client has not retired: the desk and the last client come back, with its number.
#[derive(Drop)]
pub struct Unretired<S: SeqObject> {
    pub desk: Desk<S>,
    pub last: Client<S>,
    pub client: u32,
}

impl<S: SeqObject> Desk<S> {
    /// Ends a client, and leaves its journal with the desk. A call that is outstanding may still be
    /// answered; the journal has its invocation, and no return. If the last client was told of this
    /// client's end, `close` does not return it as `Unretired`, and the record has its journal.
    pub fn retire(&self, client: Client<S>) -> Retired<S>
        requires { client.desk ≡ self.now.id }
        ensures { result
            ≡ record { table = client.desk.table; left = end_notice client.knows ∷ [] } }
    {
        let Client {
            mut seat,
            number,
            member,
        } = client;
        let journal = member.into_journal();
        let shared = &self.table.shared;
        let slot = FIRST_END + number as usize;
        seat.turn();
        let _ = shared.exchange(&mut seat, slot, Slot::Journal(journal));
        shared.store::<Ends>(&mut seat, slot, 1);
        Retired {
            seat: shared.split_seat::<SendsEnd>(&mut seat),
        }
    }

    /// Tells a client that another has retired, with its journal: `close` by that client then never
    /// names it, and records just this journal for it.
    pub fn tell(&self, client: &mut Client<S>, retired: Retired<S>)
        requires client { client.old.desk ≡ self.now.id }
        requires retired { retired.table ≡ self.now.id.table }
        ensures { client.new
            ≡ record client.old { knows = after_notice retired.left client.old.knows } }
    {
        let Retired { seat } = retired;
        self.table
            .shared
            .join_seat::<TakesNotice>(&mut client.seat, seat);
    }

    /// Closes the desk by its last client. Ok: a journal for each client, and a log for each object
    /// that is a valid order of the calls on it; so the history is linearizable, outstanding calls
    /// being pending. Else desk and client come back, with the least other client that has not
    /// retired.
    pub fn close(self, mut last: Client<S>) -> Result<Record<S>, Unretired<S>>
        requires { last.desk ≡ self.id }
        ensures closed { IfOk result (IsClosedRecord S.op_in S.reply_in self last) }
        ensures unretired { IfErr result (λ u. (u.desk ≡ self) × (u.last.desk ≡ last.desk)
            × (u.last.places ≡ last.places) × IsStillThere self last u.client u.last) }
    {
        match first_unretired(&self, &mut last) {
            Some(client) => Err(Unretired {
                desk: self,
                last,
                client,
            }),
            None => Ok(gather(self, last)),
        }
    }
}

/// Whether the client has ended. The last client knows that, or has found it there.
fn sees_end<S: SeqObject>(desk: &Desk<S>, last: &mut Client<S>, client: u32) -> bool
    requires desk { last.old.desk ≡ desk.now.id }
    requires client { client < desk.now.clients }
    ensures desk { last.new.desk ≡ last.old.desk }
    ensures places { last.new.places ≡ last.old.places }
    ensures seen { last.new.knows
        ≡ (if result then after_end_seen client last.old.knows
        else after_end_unset client last.old.knows) }
    ensures untold { result ≡ false → All (λ l. l.client ≢ client) last.old.knows.left }
{
    let shared = &desk.table.shared;
    shared.load::<SeesEnd>(&mut last.seat, FIRST_END + client as usize) == 1
}

/// The least other client that has not ended.
fn first_unretired<S: SeqObject>(desk: &Desk<S>, last: &mut Client<S>) -> Option<u32>
    requires { last.old.desk ≡ desk.now.id }
    ensures desk { last.new.desk ≡ last.old.desk }
    ensures places { last.new.places ≡ last.old.places }
    ensures found { IfSome result (λ c. IsStillThere desk.now last.old c last.new) }
    ensures all { IfNone result
        (HaveEnded desk.now.clients last.new × HasLearntEnds last.old last.new) }
{
    let number = last.number();
    for client in 0..desk.clients() {
        if client != number && !sees_end(desk, last, client) {
            return Some(client);
        }
    }
    None
}

/// The log of an object.
fn take_log<S: SeqObject>(
    left: &mut Left<S, S::Op, S::Reply>,
    x: usize,
) -> Vec<LogEntry<S::Op, S::Reply>>
    requires slots { IsTakenTo x left.old × (x < table_slots) }
    requires core { HasCore (values_of left.old) x }
    ensures slots { IsTakenTo (x + 1) left.new × (values_of left.new ≡ values_of left.old) }
    ensures log { IsLogOf (values_of left.old) x result.items }
{
    match left.take(x) {
        Slot::Core(core) => Box::into_inner(core.inside).log,
        _ => unreachable!(),
    }
}

/// The logs of the objects, which come first.
fn take_logs<S: SeqObject>(
    left: &mut Left<S, S::Op, S::Reply>,
    objects: usize,
    logs: &mut Vec<Vec<LogEntry<S::Op, S::Reply>>>,
)
    requires slots { IsTakenTo 0 left.old × (objects < 1 + max_objects) }
    requires cores { (x : ℕ) → x < objects → HasCore (values_of left.old) x }
    requires room { IsRoom objects logs.old }
    ensures slots { IsTakenTo objects left.new × (values_of left.new ≡ values_of left.old) }
    ensures logs { AreLogs objects (values_of left.old) (items_of_each logs.new.items) }
{
    for x in 0..objects {
        logs.push_reserved(take_log(left, x));
    }
}

/// Takes out and drops the values of the slots from `from` up to, not including, `to`.
fn drop_slots<S: SeqObject>(left: &mut Left<S, S::Op, S::Reply>, from: usize, to: usize)
    requires { IsTakenTo from left.old × (from ≤ to) × (to ≤ table_slots) }
    ensures { IsTakenTo to left.new × (values_of left.new ≡ values_of left.old) }
{
    for i in from..to {
        drop(left.take(i));
    }
}

/// The journal that a client left.
fn take_journal<S: SeqObject>(
    left: &mut Left<S, S::Op, S::Reply>,
    client: u32,
) -> Vec<JournalEvent<S::Op, S::Reply>>
    requires slots { IsTakenTo (journal_slot client) left.old × (client < max_clients) }
    requires journal { HasJournal (values_of left.old) client }
    ensures slots { IsTakenTo (journal_slot (1 + client)) left.new
        × (values_of left.new ≡ values_of left.old) }
    ensures journal { IsJournalOf (values_of left.old) client result.items }
{
    match left.take(FIRST_END + client as usize) {
        Slot::Journal(Journal { events }) => events,
        _ => unreachable!(),
    }
}

/// The journals of the clients from one number up to another.
fn take_journals<S: SeqObject>(
    left: &mut Left<S, S::Op, S::Reply>,
    from: u32,
    to: u32,
    journals: &mut Vec<Vec<JournalEvent<S::Op, S::Reply>>>,
)
    requires slots { IsTakenTo (journal_slot from) left.old × (from ≤ to)
        × (to < 1 + max_clients) }
    requires present { (c : ℕ) → from ≤ c → c < to → HasJournal (values_of left.old) c }
    requires room { (vec_len journals.old ≡ from) × (to ≤ vec_capacity journals.old) }
    ensures slots { IsTakenTo (journal_slot to) left.new
        × (values_of left.new ≡ values_of left.old) }
    ensures journals { AreJournals from to (values_of left.old) (items_of_each journals.new.items)
        × IsSameBelow from (items_of_each journals.old.items) (items_of_each journals.new.items) }
    ensures room { vec_capacity journals.new ≡ vec_capacity journals.old }
{
    for client in from..to {
        journals.push_reserved(take_journal(left, client));
    }
}

/// The journal of each client: the last one's own, and what the others left.
fn take_all_journals<S: SeqObject>(
    left: &mut Left<S, S::Op, S::Reply>,
    clients: u32,
    number: u32,
    own: Vec<JournalEvent<S::Op, S::Reply>>,
    journals: &mut Vec<Vec<JournalEvent<S::Op, S::Reply>>>,
)
    requires slots { IsTakenTo first_end left.old × (number < clients)
        × (clients < 1 + max_clients) }
    requires present { (c : ℕ) → c < clients → c ≢ number → HasJournal (values_of left.old) c }
    requires room { IsRoom clients journals.old × (vec_len journals.old ≡ 0) }
    ensures slots { IsTakenTo (journal_slot clients) left.new
        × (values_of left.new ≡ values_of left.old) }
    ensures count { length (items_of_each journals.new.items) ≡ clients }
    ensures own { slice_index_or (items_of_each journals.new.items) number [] ≡ own.items }
    ensures others { (c : ℕ) → c < clients → c ≢ number →
        IsJournalOf (values_of left.old) c (slice_index_or (items_of_each journals.new.items) c
        []) }
{
    let own_slot = FIRST_END + number as usize;
    take_journals(left, 0, number, journals);
    drop_slots(left, own_slot, own_slot + 1);
    journals.push_reserved(own);
    take_journals(left, number + 1, clients, journals);
}

/// The record of a desk that all other clients have left.
fn gather<S: SeqObject>(desk: Desk<S>, last: Client<S>) -> Record<S>
    requires desk { last.desk ≡ desk.id }
    requires ended { HaveEnded desk.clients last }
    ensures { IsClosedRecord S.op_in S.reply_in desk last result }
{
    let Desk {
        table,
        kinds,
        lists: _,
        clients,
        quota: _,
        mut journals,
        mut logs,
    } = desk;
    let Client {
        seat,
        number,
        member,
    } = last;
    let journal = member.into_journal();
    let objects = kinds.len();
    let mut left = table.close_with(seat);
    take_logs(&mut left, objects, &mut logs);
    drop_slots(&mut left, objects, FIRST_END);
    take_all_journals(&mut left, clients, number, journal.events, &mut journals);
    drop_slots(&mut left, FIRST_END + clients as usize, SLOTS);
    left.free();
    Record::new(journals, logs)
}
