//! The desk: posting a call, polling for its answer, and winning an object.

ghost use Rattle.std.specs.Prelude.{◌≡◌, ◌<◌, length, IfOk, IfErr, IfSome, IfNone, OnOk, ◌+◌};
ghost use Rattle.model.specs.Objects.{kind_of};
ghost use Rattle.desk_model.specs.World.{kind_at};
ghost use Rattle.desk_model.specs.Images.{answer_in};
ghost use Rattle.desk_invariant.specs.Views.{after_miss};
ghost use Rattle.desk_invariant.specs.declared.board.Slot.TheVariants as slots;
ghost use Rattle.desk_model.specs.declared.Request.{Request};
ghost use Rattle.desk_model.specs.Limits.{max_clients};

use crate::client::{Client, Hand, Pass};
use crate::one_try::look_and_exchange;
use crate::plays::{Draws, LooksAtLock, LooksForAnswer, Posts, Returns, Takes, Wins};
use atomic_table::Table;
use desk_invariant::{Core, DeskRule, DeskView, Plan, Slot};
use desk_model::Request;
use model::Kind;
use publication_list::SharedRoster;
use recorder::{Answer, JournalEvent, LogEntry};
use seq_objects::SeqObject;
use std::alloc::Global;
use std::marker::Model;

pub(crate) type DeskTable<S, O, R> = Table<Slot<S, O, R>, DeskView, Plan, DeskRule, Global>;

/// Word x is the lock of object x, and slot x its core. This is the row of client 0, and the slot
/// of its call.
pub(crate) const FIRST_ROW: usize = 16;

/// The end word of client 0, and the slot of its journal.
pub(crate) const FIRST_END: usize = 48;

/// The word of the clock.
pub(crate) const CLOCK: usize = 80;

/// A row whose request for object 0 was posted. An empty row is 0.
pub(crate) const FIRST_POSTED: u64 = 1;

/// A row whose request for object 0 was picked up.
pub(crate) const FIRST_PICKED: u64 = 17;

/// A row that has an answer.
pub(crate) const ANSWERED: u64 = 33;

/// Objects that are served to clients.
#[derive(Drop)]
pub struct Desk<S: SeqObject> {
    pub(crate) table: DeskTable<S, S::Op, S::Reply>,
    pub(crate) kinds: Vec<Kind>,
    // Which roster the publication list of each object is.
    pub(crate) lists: Vec<SharedRoster>,
    pub(crate) clients: u32,
    pub(crate) quota: u32,
    // Room for the record.
    pub(crate) journals: Vec<Vec<JournalEvent<S::Op, S::Reply>>>,
    pub(crate) logs: Vec<Vec<LogEntry<S::Op, S::Reply>>>,
}

impl<S: SeqObject> Model for Desk<S> {
    ghost use Rattle.std.specs.Prelude.{length};
    ghost use Rattle.publication.specs.Handles.{DeskSeen, IsDesk, IsRoom};

    ghost Value = { DeskSeen };

    ghost view = { λ d. record {
      id = record {
        table = d.table.shared.table_id;
        quota = d.quota;
        kinds = d.kinds.items;
        lists = d.lists.items;
      };
      clients = d.clients;
    } };

    ghost invariant = { λ d. IsDesk d.table.shared.table_id d.table.shared.key
        (record {
          id = record {
            table = d.table.shared.table_id;
            quota = d.quota;
            kinds = d.kinds.items;
            lists = d.lists.items;
          };
          clients = d.clients;
        })
        × IsRoom d.clients d.journals × IsRoom (length d.kinds.items) d.logs };
}

/// Why a call was not posted.
#[derive(Clone, Copy, Debug, PartialEq, Eq)]
pub enum Post {
    /// P1: the client has a call outstanding.
    Outstanding,
    /// P2: its quota is used.
    Spent,
    /// P3: there is no such object.
    NoSuchObject,
    /// P4: the operation is of another kind than the object.
    OtherKind,
}

/// The result of a try to win an object.
pub enum Win<S: SeqObject> {
    Won(Pass<S>),
    /// The lock word was held.
    Held(Client<S>),
}

/// The result of a try to pick up a request.
pub enum Picked<S: SeqObject> {
    Got(Hand<S>),
    /// The row had no request for the object.
    Not(Pass<S>),
}

impl<S: SeqObject> Desk<S> {
    ghost use Rattle.publication.specs.Calls.{IsNotOfKind, MayPost, IsPosted, IsPostRefusal};
    ghost use Rattle.publication.specs.Calls.{IsPollAnswer};
    ghost use Rattle.publication.specs.Calls.{IsPollMiss, IsWon, desk_after_win, places_after_win};
    ghost use Rattle.publication.specs.Calls.{IfWon, IfHeld};

    /// How many objects there are.
    pub fn objects(&self) -> u32
        ensures { result ≡ length self.now.id.kinds }
    {
        self.kinds.len() as u32
    }

    /// How many clients there are.
    pub fn clients(&self) -> u32
        ensures clients { result ≡ self.now.clients }
        ensures few { result < 1 + max_clients }
    {
        self.clients
    }

    /// Refuses a call on an object that is not there (P3), or is of another kind (P4).
    fn check_kind(&self, object: u32, kind: Kind) -> Result<(), Post>
        ensures ok { OnOk result ((object < length self.now.id.kinds)
            × (kind ≡ kind_at self.now.id.kinds object)) }
        ensures err { IfErr result (IsNotOfKind self.now.id.kinds object kind) }
    {
        if object as usize >= self.kinds.len() {
            return Err(Post::NoSuchObject);
        }
        if kind != self.kinds[object as usize] {
            return Err(Post::OtherKind);
        }
        Ok(())
    }

    /// Refuses a call that the client may not make, by the first of P1 to P4 that holds.
    fn check_post(&self, client: &Client<S>, object: u32, op: &S::Op) -> Result<(), Post>
        requires { client.now.desk ≡ self.now.id }
        ensures may { OnOk result (MayPost client.now) }
        ensures there { OnOk result ((object < length self.now.id.kinds)
            × (kind_of (S.op_in op.now) ≡ kind_at self.now.id.kinds object)) }
        ensures refused { IfErr result (IsPostRefusal self.now client.now object (S.op_in op.now)) }
    {
        let member = &*client.member.inside;
        if member.outstanding {
            return Err(Post::Outstanding);
        }
        if member.calls >= member.quota {
            return Err(Post::Spent);
        }
        self.check_kind(object, S::kind_of(op))
    }

    /// Posts a call: its invocation, with its ticket, is the last event of the journal. If it is
    /// refused nothing changes, and no ticket is taken. It does not enlist the row. The record of
    /// `close` says that the ticket is a new one.
    pub fn post(&self, client: &mut Client<S>, object: u32, op: S::Op) -> Result<(), Post>
        requires { client.old.desk ≡ self.now.id }
        ensures desk { client.new.desk ≡ client.old.desk }
        ensures places { client.new.places ≡ client.old.places }
        ensures may { OnOk result (MayPost client.old) }
        ensures there { OnOk result ((object < length self.now.id.kinds)
            × (kind_of (S.op_in op) ≡ kind_at self.now.id.kinds object)) }
        ensures posted { IfOk result (λ _. IsPosted client.old.knows object (S.op_in op)
            client.new.knows) }
        ensures refused { IfErr result (λ e. (client.new ≡ client.old)
            × IsPostRefusal self.now client.old object (S.op_in op) e) }
    {
        if let Err(fault) = self.check_post(client, object, &op) {
            return Err(fault);
        }
        let slot = FIRST_ROW + client.number as usize;
        let shared = &self.table.shared;
        let seat = &mut client.seat;
        let asked = Request {
            object,
            ticket: 0,
            op,
        };
        let _ = shared.exchange(seat, slot, Slot::Request(asked));
        let ticket = shared.fetch_add::<Draws>(seat, CLOCK, 1);
        set_ticket(seat.slot_mut(shared, slot), ticket);
        shared.store::<Posts>(seat, slot, FIRST_POSTED + object as u64);
        client.member.note_invoked(Request { object, ticket, op });
        Ok(())
    }

    /// Looks once at the client's own row. If an answer is there, takes it and draws the ticket of
    /// the return; the client has then seen a legal log of the object that extends what it had
    /// seen, and has the call if the answer is a reply. It is never None if the client knows that
    /// its row is answered.
    pub fn poll(&self, client: &mut Client<S>) -> Option<Answer<S::Reply>>
        requires { client.old.desk ≡ self.now.id }
        ensures desk { client.new.desk ≡ client.old.desk }
        ensures places { client.new.places ≡ client.old.places }
        ensures polled { IfSome result (λ a.
            IsPollAnswer client.old.knows (answer_in S.reply_in a) client.new.knows) }
        ensures missed { IfNone result (IsPollMiss client.old.knows client.new.knows) }
    {
        if !client.member.is_outstanding() {
            return None;
        }
        let slot = FIRST_ROW + client.number as usize;
        let shared = &self.table.shared;
        let seat = &mut client.seat;
        let found = look_and_exchange::<_, _, _, _, LooksForAnswer, Takes>(
            shared, seat, slot, ANSWERED, 0,
        );
        if found != ANSWERED {
            return None;
        }
        match shared.exchange(seat, slot, Slot::Nothing) {
            Slot::Answer(answer) => {
                let ticket = shared.fetch_add::<Returns>(seat, CLOCK, 1);
                client.member.note_returned(ticket, answer);
                Some(answer)
            }
            _ => unreachable!(),
        }
    }

    /// Tries once to become the object's combiner. Won: its log is legal, and goes on from what the
    /// client had seen. Held: the try missed, and nothing was waited for.
    pub fn win(&self, client: Client<S>, object: u32) -> Win<S>
        requires desk { client.desk ≡ self.now.id }
        requires object { object < length self.now.id.kinds }
        ensures desk { desk_after_win result ≡ client.desk }
        ensures places { places_after_win result ≡ client.places }
        ensures won { IfWon result (IsWon client object) }
        ensures held { IfHeld result (λ c. c.knows ≡ after_miss object client.knows) }
    {
        let Client {
            mut seat,
            number,
            member,
        } = client;
        let shared = &self.table.shared;
        let word = object as usize;
        let mine = 1 + number as u64;
        let found = look_and_exchange::<_, _, _, _, LooksAtLock, Wins>(
            shared, &mut seat, word, 0, mine,
        );
        if found != 0 {
            return Win::Held(Client {
                seat,
                number,
                member,
            });
        }
        match shared.exchange(&mut seat, word, Slot::Nothing) {
            Slot::Core(core) => Win::Won(Pass {
                seat,
                number,
                member,
                object,
                core,
            }),
            _ => unreachable!(),
        }
    }
}

/// Writes the ticket into the request in the slot.
#[inline(always)]
fn set_ticket<S, O: Copy, R>(place: &mut Slot<S, O, R>, ticket: u64)
    requires { (q : Request O) × (place.old ≡ slots.Request q) }
    ensures { (q : Request O) → place.old ≡ slots.Request q →
        place.new ≡ slots.Request (record q { ticket = ticket }) }
{
    match place {
        Slot::Request(request) => request.ticket = ticket,
        _ => unreachable!(),
    }
}
