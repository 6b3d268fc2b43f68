//! The steps that a client takes on its own row.

ghost use Rattle.std.specs.Prelude.{◌≡◌, ◌<◌, [], ◌∷◌, ◌++◌, length, slice_set, slice_index_or};
ghost use Rattle.std.specs.Prelude.{OnOk, IfErr};
ghost use Rattle.recorder.specs.Records.{items_of_each};
ghost use Rattle.desk_model.specs.Transitions.{post, take, end, draw_call, draw_return};
ghost use Rattle.machine.specs.declared.step.Step.TheVariants.{Draw};
ghost use Rattle.machine.specs.Steps.{IsGoing, Tries, step_in};

use crate::machine::Machine;
use crate::step::{Outcome, Stage, StepFault};
use desk_model::{JournalEvent, Request};
use seq_objects::SeqObject;

impl<S: SeqObject> Machine<S> {
    pub(crate) fn draw(
        &mut self,
        client: u32,
        call: Option<(u32, S::Op)>,
    ) -> Result<Outcome<S::Reply>, StepFault>
        requires { IsGoing self.old client }
        ensures { Tries S.reply_in self.old client (step_in S.op_in (Draw call)) result self.new }
    {
        match call {
            Some((object, op)) => self.draw_call(client, object, op),
            None => self.draw_return(client),
        }
    }

    fn draw_call(
        &mut self,
        client: u32,
        object: u32,
        op: S::Op,
    ) -> Result<Outcome<S::Reply>, StepFault>
        requires { IsGoing self.old client }
        ensures { Tries S.reply_in self.old client (draw_call object (S.op_in op)) result self.new }
    {
        if !self.may_call(client) || !self.has_kind(object, S::kind_of(&op)) {
            return Err(StepFault::NotNow);
        }
        let c = client as usize;
        let ticket = self.clock;
        let next = self.next_ticket();
        note(
            &mut self.journals,
            c,
            JournalEvent::Invoked { ticket, object, op },
        )?;
        self.stages[c] = Stage::Drawn(Request { object, ticket, op });
        self.clock = next;
        Ok(Outcome::Drew(ticket))
    }

    fn draw_return(&mut self, client: u32) -> Result<Outcome<S::Reply>, StepFault>
        requires { IsGoing self.old client }
        ensures { Tries S.reply_in self.old client draw_return result self.new }
    {
        let c = client as usize;
        let Stage::Taken(_request, answer) = self.stages[c] else {
            return Err(StepFault::NotNow);
        };
        let ticket = self.clock;
        let next = self.next_ticket();
        note(
            &mut self.journals,
            c,
            JournalEvent::Returned { ticket, answer },
        )?;
        self.stages[c] = Stage::Idle;
        self.clock = next;
        Ok(Outcome::Drew(ticket))
    }

    pub(crate) fn post(&mut self, client: u32) -> Result<Outcome<S::Reply>, StepFault>
        requires { IsGoing self.old client }
        ensures { Tries S.reply_in self.old client post result self.new }
    {
        let c = client as usize;
        let Stage::Drawn(request) = self.stages[c] else {
            return Err(StepFault::NotNow);
        };
        self.stages[c] = Stage::Posted(request);
        Ok(Outcome::Done)
    }

    pub(crate) fn take(&mut self, client: u32) -> Result<Outcome<S::Reply>, StepFault>
        requires { IsGoing self.old client }
        ensures { Tries S.reply_in self.old client take result self.new }
    {
        let c = client as usize;
        let Stage::Answered(request, answer) = self.stages[c] else {
            return Err(StepFault::NotNow);
        };
        self.stages[c] = Stage::Taken(request, answer);
        Ok(Outcome::Done)
    }

    pub(crate) fn end(&mut self, client: u32) -> Result<Outcome<S::Reply>, StepFault>
        requires { IsGoing self.old client }
        ensures { Tries S.reply_in self.old client end result self.new }
    {
        if !self.may_end(client) || !self.holds_nothing(client) {
            return Err(StepFault::NotNow);
        }
        self.ended[client as usize] = true;
        Ok(Outcome::Done)
    }
}

/// One event more in a client's journal. If an allocation fails the journal is as it was.
fn note<O: Drop, R: Drop>(
    journals: &mut Vec<Vec<JournalEvent<O, R>>>,
    client: usize,
    event: JournalEvent<O, R>,
) -> Result<(), StepFault>
    requires { client < length journals.old.items }
    ensures ok { OnOk result (items_of_each journals.new.items
        ≡ slice_set (items_of_each journals.old.items) client
        (slice_index_or (items_of_each journals.old.items) client [] ++ event ∷ [])) }
    ensures err { IfErr result (λ e. (e ≡ StepFault.NoMemory)
        × (items_of_each journals.new.items ≡ items_of_each journals.old.items)) }
{
    journals[client].push(event)?;
    Ok(())
}
