//! A client, and what it becomes while it holds an object.

ghost use Rattle.std.specs.Prelude.{◌≡◌, ◌+◌, ◌<◌, ◌≤◌, ℕ, [], ◌∷◌, ◌++◌, true, false, vec_len};
ghost use Rattle.std.specs.Prelude.{vec_capacity};
ghost use Rattle.desk_model.specs.Limits.{max_objects, max_clients};
ghost use Rattle.desk_model.specs.declared.JournalEvent.TheVariants.{Invoked, Returned};
ghost use Rattle.desk_model.specs.World.{kind_at, IsLegalLog};
ghost use Rattle.desk_invariant.specs.Views.{is_waiting, seen_of, IsAccount};
ghost use Rattle.publication.specs.Handles.{trying};

use atomic_table::Seat;
use desk_invariant::{BoxedCore, DeskView, Journal, Slot};
use desk_model::Request;
use publication_list::{Enlist, SharedPlace};
use recorder::{Answer, JournalEvent};
use seq_objects::SeqObject;
use std::marker::Model;

pub(crate) type Place<S, O, R> = Seat<Slot<S, O, R>, DeskView>;

/// A client's place in the publication list of each object.
#[derive(Drop)]
pub(crate) struct Places {
    pub all: Vec<SharedPlace>,
}

impl Model for Places {
    ghost use Rattle.std.specs.Prelude.{◌≡◌, List, length};
    ghost use Rattle.publication_list.specs.Calls.{PlaceSeen};
    ghost use Rattle.desk_model.specs.Limits.{max_objects};

    ghost Value = { List PlaceSeen };

    ghost view = { λ p. p.all.items };

    ghost invariant = { λ p. length p.all.items ≡ max_objects };
}

impl Places {
    /// Tries once to put the client's row in front of the list of the object.
    pub fn enlist(&mut self, object: usize) -> Enlist
        requires { object < max_objects }
        ensures { self.new ≡ trying object result self.old }
    {
        self.all[object].enlist()
    }
}

/// What a client keeps itself, in addition to its seat at the table and its number.
#[derive(Drop)]
pub(crate) struct Member<O, R> {
    pub calls: u32,
    pub quota: u32,
    pub outstanding: bool,
    pub journal: Journal<O, R>,
    pub places: Places,
}

impl<O: Copy, R: Copy> Member<O, R> {
    /// Writes the invocation of a call, which is outstanding then, into the journal.
    pub fn note_invoked(&mut self, asked: Request<O>)
        requires calls { self.old.calls < self.old.quota }
        requires room { vec_len self.old.journal.events < vec_capacity self.old.journal.events }
        ensures calls { self.new.calls ≡ self.old.calls + 1 }
        ensures events { self.new.journal.events.items ≡ self.old.journal.events.items
            ++ Invoked asked.ticket asked.object asked.op ∷ [] }
        ensures capacity { vec_capacity self.new.journal.events
            ≡ vec_capacity self.old.journal.events }
        ensures same { self.new
            ≡ record self.old {
              calls = self.new.calls;
              outstanding = true;
              journal = self.new.journal;
            } }
    {
        let Request { object, ticket, op } = asked;
        let invoked = JournalEvent::Invoked { ticket, object, op };
        self.journal.events.push_reserved(invoked);
        self.outstanding = true;
        self.calls += 1;
    }

    /// Writes the return of the call that was outstanding into the journal.
    pub fn note_returned(&mut self, ticket: u64, answer: Answer<R>)
        requires room { vec_len self.old.journal.events < vec_capacity self.old.journal.events }
        ensures events { self.new.journal.events.items ≡ self.old.journal.events.items
            ++ Returned ticket answer ∷ [] }
        ensures capacity { vec_capacity self.new.journal.events
            ≡ vec_capacity self.old.journal.events }
        ensures same { self.new
            ≡ record self.old { outstanding = false; journal = self.new.journal } }
    {
        let returned = JournalEvent::Returned { ticket, answer };
        self.journal.events.push_reserved(returned);
        self.outstanding = false;
    }
}

/// A member in a box, so that it moves as one word. Contracts see the member.
#[derive(Drop)]
pub(crate) struct BoxedMember<O, R> {
    pub inside: Box<Member<O, R>>,
}

impl<O, R> Model for BoxedMember<O, R> {
    ghost use Rattle.publication.specs.declared.client.Member.{Member};

    ghost Value = { Member O R };

    ghost view = { λ b. b.inside.value };
}

impl<O: Copy, R: Copy> BoxedMember<O, R> {
    /// Whether a call is outstanding.
    pub fn is_outstanding(&self) -> bool
        ensures { result ≡ self.now.outstanding }
    {
        self.inside.outstanding
    }

    /// Tries once to put the client's row in front of the list of the object.
    pub fn enlist(&mut self, object: usize) -> Enlist
        requires { object < max_objects }
        ensures { self.new
            ≡ record self.old { places = trying object result self.old.places } }
    {
        self.inside.places.enlist(object)
    }

    /// Writes the invocation of a call, which is outstanding then, into the journal.
    pub fn note_invoked(&mut self, asked: Request<O>)
        requires calls { self.old.calls < self.old.quota }
        requires room { vec_len self.old.journal.events < vec_capacity self.old.journal.events }
        ensures calls { self.new.calls ≡ self.old.calls + 1 }
        ensures events { self.new.journal.events.items ≡ self.old.journal.events.items
            ++ Invoked asked.ticket asked.object asked.op ∷ [] }
        ensures capacity { vec_capacity self.new.journal.events
            ≡ vec_capacity self.old.journal.events }
        ensures same { self.new
            ≡ record self.old {
              calls = self.new.calls;
              outstanding = true;
              journal = self.new.journal;
            } }
    {
        self.inside.note_invoked(asked);
    }

    /// Writes the return of the call that was outstanding into the journal.
    pub fn note_returned(&mut self, ticket: u64, answer: Answer<R>)
        requires room { vec_len self.old.journal.events < vec_capacity self.old.journal.events }
        ensures events { self.new.journal.events.items ≡ self.old.journal.events.items
            ++ Returned ticket answer ∷ [] }
        ensures capacity { vec_capacity self.new.journal.events
            ≡ vec_capacity self.old.journal.events }
        ensures same { self.new
            ≡ record self.old { outstanding = false; journal = self.new.journal } }
    {
        self.inside.note_returned(ticket, answer);
    }

    /// The journal, at the client's end.
    pub fn into_journal(self) -> Journal<O, R>
        ensures { result ≡ self.journal }
    {
        Box::into_inner(self.inside).journal
    }
}

/// A client that holds no object.
#[derive(Drop)]
pub struct Client<S: SeqObject> {
    pub(crate) seat: Place<S, S::Op, S::Reply>,
    pub(crate) number: u32,
    pub(crate) member: BoxedMember<S::Op, S::Reply>,
}

impl<S: SeqObject> Model for Client<S> {
    ghost use Rattle.std.specs.Prelude.{map};
    ghost use Rattle.publication.specs.Handles.{Known, IsClient, ArePlacesOf};

    ghost Value = { Known };

    ghost view = { λ c. record {
      desk = record {
        table = c.seat.table_id;
        quota = c.member.quota;
        kinds = c.seat.me.0.kinds;
        lists = map (λ q. q.roster) c.member.places;
      };
      knows = c.seat.me.0;
      places = c.member.places;
    } };

    ghost invariant = { λ c. IsClient S.op_in S.reply_in c.number c.member.calls
        c.member.quota c.member.outstanding c.member.journal c.seat.me
        × ArePlacesOf c.number c.seat.me.0.lists c.member.places };
}

/// A combiner: a client that holds an object, from `win` to `release`. It must be spent.
pub struct Pass<S: SeqObject> {
    pub(crate) seat: Place<S, S::Op, S::Reply>,
    pub(crate) number: u32,
    pub(crate) member: BoxedMember<S::Op, S::Reply>,
    pub(crate) object: u32,
    pub(crate) core: BoxedCore<S, S::Op, S::Reply>,
}

impl<S: SeqObject> Model for Pass<S> {
    ghost use Rattle.std.specs.Prelude.{map};
    ghost use Rattle.publication.specs.Handles.{Holding, IsPass, ArePlacesOf, log_of, state_of};

    ghost Value = { Holding };

    ghost view = { λ p. record {
      desk = record {
        table = p.seat.table_id;
        quota = p.member.quota;
        kinds = p.seat.me.0.kinds;
        lists = map (λ q. q.roster) p.member.places;
      };
      knows = p.seat.me.0;
      object = p.object;
      log = log_of S.op_in S.reply_in p.core;
      state = state_of p.core p.member.places;
    } };

    ghost invariant = { λ p. IsPass S.content S.op_in S.reply_in p.number p.member.calls
        p.member.quota p.member.outstanding p.member.journal p.object p.core p.seat.me
        × ArePlacesOf p.number p.seat.me.0.lists p.member.places };
}

/// A combiner with the request of one row, which it must answer or put back. It must be spent.
pub struct Hand<S: SeqObject> {
    pub(crate) seat: Place<S, S::Op, S::Reply>,
    pub(crate) number: u32,
    pub(crate) member: BoxedMember<S::Op, S::Reply>,
    pub(crate) object: u32,
    pub(crate) core: BoxedCore<S, S::Op, S::Reply>,
    pub(crate) row: u32,
    pub(crate) request: Request<S::Op>,
}

impl<S: SeqObject> Model for Hand<S> {
    ghost use Rattle.desk_model.specs.Images.{request_in};
    ghost use Rattle.std.specs.Prelude.{map};
    ghost use Rattle.publication.specs.Handles.{Handling, IsHand, ArePlacesOf, log_of, state_of};

    ghost Value = { Handling };

    ghost view = { λ p. record {
      desk = record {
        table = p.seat.table_id;
        quota = p.member.quota;
        kinds = p.seat.me.0.kinds;
        lists = map (λ q. q.roster) p.member.places;
      };
      knows = p.seat.me.0;
      object = p.object;
      log = log_of S.op_in S.reply_in p.core;
      state = state_of p.core p.member.places;
      row = p.row;
      request = request_in S.op_in p.request;
    } };

    ghost invariant = { λ p. IsHand S.content S.op_in S.reply_in p.number p.member.calls
        p.member.quota p.member.outstanding p.member.journal p.object p.core p.row p.request
        p.seat.me
        × ArePlacesOf p.number p.seat.me.0.lists p.member.places };
}

impl<S: SeqObject> Client<S> {
    /// The client's number, which is that of its row.
    pub fn number(&self) -> u32
        ensures number { result ≡ self.now.knows.number }
        ensures low { result < max_clients }
        // The kinds that it knows are those of its desk.
        ensures kinds { self.now.knows.kinds ≡ self.now.desk.kinds }
    {
        self.number
    }

    /// Whether a call was posted whose answer was not taken. Its clauses say at any moment what the
    /// client knows of each object: a legal log, with just those of its own calls that are over and
    /// were not refused, each once and in order, and the outstanding one at most once.
    pub fn outstanding(&self) -> bool
        ensures outstanding { result ≡ is_waiting self.now.knows.own }
        // At every moment, what the client has seen of an object is a legal log.
        ensures legal { (x : ℕ)
            → IsLegalLog (kind_at self.now.desk.kinds x) (seen_of self.now.knows x) }
        // And it holds of its own calls just those that are over and
        // were not refused, each once and in order, and the outstanding one at most once.
        ensures accounts { (x : ℕ) → IsAccount x self.now.knows (seen_of self.now.knows x) }
        // The kinds that it knows are those of its desk.
        ensures kinds { self.now.knows.kinds ≡ self.now.desk.kinds }
    {
        self.member.is_outstanding()
    }
}
