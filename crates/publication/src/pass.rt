//! Serving the rows of an object that is held.

ghost use Rattle.std.specs.Prelude.{◌≡◌, ◌+◌, ◌-◌, ◌^◌, ◌<◌, ◌++◌, ◌↔◌, length, min, map, vec_len};
ghost use Rattle.std.specs.Prelude.{vec_capacity, IsTrue, IsSome};
ghost use Rattle.desk_model.specs.Limits.{max_clients};
ghost use Rattle.model.specs.Objects.{kind_of, kind_with, next};
ghost use Rattle.desk_model.specs.World.{logged, Serves};
ghost use Rattle.desk_model.specs.Images.{request_in, answer_in, entry_in};
ghost use Rattle.desk_invariant.specs.Views.{after_release, seen_of};
ghost use Rattle.publication.specs.Calls.{IsPicked, IsPickMiss, CanDoAfter, kind_held};
ghost use Rattle.publication.specs.Calls.{IsAnsweredCall, IsPutBack, desk_after_pick};
ghost use Rattle.publication.specs.Calls.{state_after_pick, IfGot, IfNot};

use crate::client::{Client, Hand, Pass};
use crate::desk::{ANSWERED, CLOCK, Desk, FIRST_PICKED, FIRST_POSTED, FIRST_ROW, Picked};
use crate::one_try::look_and_exchange;
use crate::plays::{Answers, LooksAtRow, Picks, PutsBack, Releases};
use desk_invariant::{BoxedCore, Core, Slot};
use desk_model::Request;
use recorder::Answer;
use seq_objects::SeqObject;

impl<S: SeqObject> Pass<S> {
    /// The number of the client that holds the object.
    pub fn number(&self) -> u32
        ensures number { result ≡ self.now.knows.number }
        ensures low { result < max_clients }
        ensures kinds { self.now.knows.kinds ≡ self.now.desk.kinds }
    {
        self.number
    }

    /// Tries once to pick up the row's request for this object. `IsPicked`: the request is of the
    /// object's kind. If this pass had put one of the row back, it is that one; at its own row it
    /// is the client's own call. `Not`: the row had no request, so this pass had put none of it
    /// back, and at its own row the client's call on this object, if there is one, is answered. A
    /// row past the last client has no request.
    pub fn pick(self, desk: &Desk<S>, row: u32) -> Picked<S>
        requires desk { self.desk ≡ desk.now.id }
        requires row { row < max_clients }
        ensures desk { desk_after_pick result ≡ self.desk }
        ensures state { state_after_pick result ≡ self.state }
        ensures got { IfGot result (IsPicked self row) }
        ensures missed { IfNot result (IsPickMiss self row) }
    {
        let Pass {
            mut seat,
            number,
            member,
            object,
            core,
        } = self;
        let shared = &desk.table.shared;
        let slot = FIRST_ROW + row as usize;
        let posted = FIRST_POSTED + object as u64;
        let picked = FIRST_PICKED + object as u64;
        let found = look_and_exchange::<_, _, _, _, LooksAtRow, Picks>(
            shared, &mut seat, slot, posted, picked,
        );
        if found != posted {
            return Picked::Not(Pass {
                seat,
                number,
                member,
                object,
                core,
            });
        }
        match shared.exchange(&mut seat, slot, Slot::Nothing) {
            Slot::Request(request) => Picked::Got(Hand {
                seat,
                number,
                member,
                object,
                core,
                row,
                request,
            }),
            _ => unreachable!(),
        }
    }

    /// Counts a pass, and returns its number, which stays at 2^64 - 1 once it is there. `set_age`
    /// gives it to rows.
    pub fn count_pass(&mut self) -> u64
        ensures counted { self.new
            ≡ record self.old { state = record self.old.state { passes = result } } }
        ensures raised { result ≡ min (self.old.state.passes + 1) (2 ^ 64 - 1) }
    {
        let passes = self.core.inside.passes.saturating_add(1);
        self.core.inside.passes = passes;
        passes
    }

    /// Puts the object back, so that another may win it. The client has seen the log as it then
    /// stood.
    pub fn release(self, desk: &Desk<S>) -> Client<S>
        requires { self.desk ≡ desk.now.id }
        ensures desk { result.desk ≡ self.desk }
        ensures places { result.places ≡ self.state.places }
        // The client has seen the log.
        ensures released { result.knows ≡ after_release self.object self.log self.knows }
        ensures seen { seen_of result.knows self.object ≡ self.log }
    {
        let Pass {
            mut seat,
            number,
            member,
            object,
            core,
        } = self;
        let shared = &desk.table.shared;
        let word = object as usize;
        let _ = shared.exchange(&mut seat, word, Slot::Core(core));
        shared.store::<Releases>(&mut seat, word, 0);
        Client {
            seat,
            number,
            member,
        }
    }
}

impl<S: SeqObject> Hand<S> {
    /// The request that was picked up.
    pub fn request(&self) -> &Request<S::Op>
        ensures { request_in S.op_in result.now ≡ self.now.request }
    {
        &self.request
    }

    /// Whether the object can do the operation now.
    pub fn possible(&self) -> bool
        ensures { IsTrue result ↔ CanDoAfter (kind_held self.now) self.now.log self.now.request.op }
    {
        can_do(&self.core, &self.request.op)
    }

    /// Applies the operation, logs it, and answers the request. If an allocation fails it answers
    /// Refused, and nothing is done or logged.
    pub fn answer(self, desk: &Desk<S>) -> (Pass<S>, Answer<S::Reply>)
        requires desk { self.desk ≡ desk.now.id }
        requires possible { CanDoAfter (kind_held self) self.log self.request.op }
        ensures desk { result.0.desk ≡ self.desk }
        ensures state { result.0.state ≡ record self.state { room = result.0.state.room } }
        // An entry takes room for one, if there was room.
        ensures room { 0 < self.state.room →
            result.0.state.room + length (logged self.row self.request
            (answer_in S.reply_in result.1))
            ≡ self.state.room }
        ensures answered { IsAnsweredCall self (answer_in S.reply_in result.1) result.0 }
    {
        let Hand {
            mut seat,
            number,
            member,
            object,
            mut core,
            row,
            request,
        } = self;
        let answer = serve(&mut core, row, &request);
        let shared = &desk.table.shared;
        let slot = FIRST_ROW + row as usize;
        let _ = shared.exchange(&mut seat, slot, Slot::Answer(answer));
        shared.store::<Answers>(&mut seat, slot, ANSWERED);
        (
            Pass {
                seat,
                number,
                member,
                object,
                core,
            },
            answer,
        )
    }

    /// Puts a request whose operation is not possible now back into its row.
    pub fn put_back(self, desk: &Desk<S>) -> Pass<S>
        requires desk { self.desk ≡ desk.now.id }
        requires impossible { CanDoAfter (kind_held self) self.log self.request.op → ⊥ }
        ensures desk { result.desk ≡ self.desk }
        ensures state { result.state ≡ self.state }
        ensures put_back { IsPutBack self result }
    {
        let Hand {
            mut seat,
            number,
            member,
            object,
            core,
            row,
            request,
        } = self;
        let shared = &desk.table.shared;
        let slot = FIRST_ROW + row as usize;
        let _ = shared.exchange(&mut seat, slot, Slot::Request(request));
        shared.store::<PutsBack>(&mut seat, slot, FIRST_POSTED + object as u64);
        Pass {
            seat,
            number,
            member,
            object,
            core,
        }
    }
}

/// Whether the object can do the operation.
fn can_do<S: SeqObject>(core: &BoxedCore<S, S::Op, S::Reply>, op: &S::Op) -> bool
    requires { kind_of (S.op_in op.now) ≡ kind_with (S.content core.now.object) }
    ensures { IsTrue result ↔ IsSome (next (S.content core.now.object) (S.op_in op.now)) }
{
    core.inside.object.possible(op)
}

/// Does the operation, and logs it.
#[inline(always)]
fn serve<S: SeqObject>(
    core: &mut BoxedCore<S, S::Op, S::Reply>,
    row: u32,
    request: &Request<S::Op>,
) -> Answer<S::Reply>
    requires { IsSome (next (S.content core.old.object) (S.op_in request.now.op)) }
    ensures log { map (entry_in S.op_in S.reply_in) core.new.log.items
        ≡ map (entry_in S.op_in S.reply_in) core.old.log.items
        ++ logged row (request_in S.op_in request.now) (answer_in S.reply_in result) }
    ensures state { (core.new.passes ≡ core.old.passes) × (core.new.list ≡ core.old.list)
        × (core.new.ages ≡ core.old.ages) }
    ensures room { vec_len core.old.log < vec_capacity core.old.log →
        vec_capacity core.new.log ≡ vec_capacity core.old.log }
    ensures content { Serves (S.content core.old.object) (S.op_in request.now.op)
        (answer_in S.reply_in result) (S.content core.new.object) }
{
    let Core { object, log, .. } = &mut *core.inside;
    recorder::serve(object, log, row, request)
}
