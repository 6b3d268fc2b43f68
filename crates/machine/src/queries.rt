//! What a step asks of the machine.

ghost use Rattle.std.specs.Prelude.{◌≡◌, ◌≢◌, ◌↔◌, ℕ, ◌+◌, ◌<◌, false, [], length, slice_index_or};
ghost use Rattle.std.specs.Prelude.{IsTrue, IfSome, IfNone, Some, None};
ghost use Rattle.model.specs.Objects.{kind_of};
ghost use Rattle.desk_model.specs.World.{AnyRequest, idle, posted, picked, kind_at, calls_made};
ghost use Rattle.desk_model.specs.Transitions.{HoldsNothing, MayEnd};
ghost use Rattle.desk_model.specs.Images.{request_in};
ghost use Rattle.machine.specs.Machines.{HasRun, clients_of, stage_in, stage_of, world_of};
ghost use Rattle.machine.specs.Steps.{CanDo, HasContent, HasPicked, IsInHand};

use crate::machine::Machine;
use crate::step::Stage;
use desk_model::Request;
use model::Kind;
use seq_objects::SeqObject;

impl<S: SeqObject> Machine<S> {
    /// How many objects there are.
    pub fn objects(&self) -> u32
        ensures { result ≡ length self.now.kinds }
    {
        self.objects.len() as u32
    }

    /// How many clients there are.
    pub fn clients(&self) -> u32
        ensures { result ≡ clients_of self.now }
    {
        self.stages.len() as u32
    }

    /// Whether there is such a client, and it has not ended.
    pub(crate) fn is_going(&self, client: u32) -> bool
        ensures going { IsTrue result ↔ ((client < clients_of self.now)
            × ((world_of self.now).ended client ≡ false)) }
        ensures run { HasRun self.now }
    {
        match self.ended.get(client as usize) {
            Some(ended) => !*ended,
            None => false,
        }
    }

    /// Whether there is such an object, of this kind.
    pub(crate) fn has_kind(&self, object: u32, kind: Kind) -> bool
        ensures { IsTrue result ↔ ((object < length self.now.kinds)
            × (kind ≡ kind_at self.now.kinds object)) }
    {
        match self.objects.get(object as usize) {
            Some(there) => there.kind() == kind,
            None => false,
        }
    }

    /// The object that the client holds.
    pub(crate) fn held_by(&self, client: u32) -> Option<u32>
        ensures held { IfSome result (λ x. (x < length self.now.kinds)
            × ((world_of self.now).holder x ≡ Some client)) }
        ensures only { IfSome result (λ x. (y : ℕ) → (world_of self.now).holder y ≡ Some client
            → y ≡ x) }
        ensures none { IfNone result (HoldsNothing (world_of self.now) client) }
    {
        for object in 0..self.objects() {
            if self.holders[object as usize] == Some(client) {
                return Some(object);
            }
        }
        None
    }

    /// Whether the client holds no object.
    pub(crate) fn holds_nothing(&self, client: u32) -> bool
        ensures { IsTrue result ↔ HoldsNothing (world_of self.now) client }
    {
        self.held_by(client).is_none()
    }

    /// Whether there is such an object, and no client holds it.
    pub(crate) fn is_free(&self, object: u32) -> bool
        ensures { IsTrue result ↔ ((object < length self.now.kinds)
            × ((world_of self.now).holder object ≡ None)) }
    {
        match self.holders.get(object as usize) {
            Some(holder) => holder.is_none(),
            None => false,
        }
    }

    /// How far the client's call has come.
    fn stage_at(&self, client: u32) -> Stage<S::Op, S::Reply>
        requires { client < clients_of self.now }
        ensures { (world_of self.now).stage client ≡ stage_of (stage_in S.op_in S.reply_in result) }
    {
        self.stages[client as usize]
    }

    /// How many events the client's journal has.
    fn events_of(&self, client: u32) -> usize
        requires { client < clients_of self.now }
        ensures { result ≡ length (slice_index_or self.now.journals client []) }
    {
        self.journals[client as usize].len()
    }

    /// Whether the client is idle, and its quota is not used up.
    pub(crate) fn may_call(&self, client: u32) -> bool
        requires { client < clients_of self.now }
        ensures { IsTrue result ↔ (((world_of self.now).stage client ≡ idle)
            × (calls_made ((world_of self.now).done client) None < self.now.quota)) }
    {
        match self.stage_at(client) {
            Stage::Idle => self.events_of(client) < 2 * self.quota as usize,
            _ => false,
        }
    }

    /// Whether the client may end: its call is not between two of its own steps.
    pub(crate) fn may_end(&self, client: u32) -> bool
        requires { client < clients_of self.now }
        ensures { IsTrue result ↔ MayEnd ((world_of self.now).stage client) }
    {
        match self.stage_at(client) {
            Stage::Drawn(_) => false,
            Stage::Taken(_, _) => false,
            _ => true,
        }
    }

    /// The ticket after the next one.
    pub(crate) fn next_ticket(&self) -> u64
        ensures { result ≡ self.now.clock + 1 }
    {
        self.clock + 1
    }

    /// The request for the object that is in the row, if there is one.
    pub(crate) fn posted_at(&self, row: u32, object: u32) -> Option<Request<S::Op>>
        ensures found { IfSome result (λ q. (row < clients_of self.now)
            × ((world_of self.now).stage row ≡ posted (request_in S.op_in q))
            × (q.object ≡ object)) }
        ensures none { IfNone result ((q : AnyRequest) → (world_of self.now).stage row ≡ posted q →
            q.object ≢ object) }
    {
        if row >= self.clients() {
            return None;
        }
        let Stage::Posted(request) = self.stage_at(row) else {
            return None;
        };
        if request.object == object {
            Some(request)
        } else {
            None
        }
    }

    /// The row that the holder of the object has in hand.
    pub(crate) fn hand_of(&self, object: u32) -> Option<u32>
        requires { object < length self.now.kinds }
        ensures hand { (world_of self.now).hand object ≡ result }
        ensures picked { IfSome result (λ r. (r < clients_of self.now)
            × HasPicked self.now object r) }
    {
        self.hands[object as usize]
    }

    /// Whether the holder of the object has no row in hand.
    pub(crate) fn is_hand_free(&self, object: u32) -> bool
        requires { object < length self.now.kinds }
        ensures { IsTrue result ↔ ((world_of self.now).hand object ≡ None) }
    {
        self.hand_of(object).is_none()
    }

    /// The request of the row that is in the hand of the object's holder.
    fn picked_at(&self, object: u32, row: u32) -> Request<S::Op>
        requires row { row < clients_of self.now }
        requires picked { HasPicked self.now object row }
        ensures stage { (world_of self.now).stage row ≡ picked (request_in S.op_in result) }
        ensures on { result.object ≡ object }
        ensures of_kind { kind_of (S.op_in result.op) ≡ kind_at self.now.kinds object }
    {
        match self.stage_at(row) {
            Stage::Picked(request) => request,
            _ => unreachable!(),
        }
    }

    /// The object that the client holds, and the row and the request that it has in hand.
    pub(crate) fn in_hand(&self, client: u32) -> Option<(u32, u32, Request<S::Op>)>
        ensures found { IfSome result (λ h. IsInHand self.now client h.0 h.1
            (request_in S.op_in h.2)) }
        ensures none { IfNone result ((x r : ℕ) → (world_of self.now).holder x ≡ Some client →
            (world_of self.now).hand x ≡ Some r → ⊥) }
    {
        let object = self.held_by(client)?;
        let row = self.hand_of(object)?;
        Some((object, row, self.picked_at(object, row)))
    }

    /// Whether the object can do the operation of the request in hand.
    pub(crate) fn is_possible(&self, object: u32, request: &Request<S::Op>) -> bool
        requires object { object < length self.now.kinds }
        requires fits { kind_of (S.op_in request.now.op) ≡ kind_at self.now.kinds object }
        ensures possible { IsTrue result ↔ CanDo self.now object (S.op_in request.now.op) }
        ensures content { HasContent self.now object }
    {
        self.objects[object as usize].possible(&request.op)
    }
}
