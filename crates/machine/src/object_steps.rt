//! The steps that a client takes on an object.

ghost use Rattle.desk_model.specs.Transitions.{win, pick, answer, put_back, release};
ghost use Rattle.machine.specs.Steps.{IsGoing, Tries};

use crate::machine::Machine;
use crate::step::{Outcome, Stage, StepFault};
use recorder::serve;
use seq_objects::SeqObject;

impl<S: SeqObject> Machine<S> {
    pub(crate) fn win(&mut self, client: u32, object: u32) -> Result<Outcome<S::Reply>, StepFault>
        requires { IsGoing self.old client }
        ensures { Tries S.reply_in self.old client (win object) result self.new }
    {
        if !self.is_free(object) || !self.holds_nothing(client) {
            return Err(StepFault::NotNow);
        }
        self.holders[object as usize] = Some(client);
        Ok(Outcome::Done)
    }

    pub(crate) fn release(&mut self, client: u32) -> Result<Outcome<S::Reply>, StepFault>
        requires { IsGoing self.old client }
        ensures { Tries S.reply_in self.old client release result self.new }
    {
        let Some(object) = self.held_by(client) else {
            return Err(StepFault::NotNow);
        };
        if !self.is_hand_free(object) {
            return Err(StepFault::NotNow);
        }
        self.holders[object as usize] = None;
        Ok(Outcome::Done)
    }

    pub(crate) fn pick(&mut self, client: u32, row: u32) -> Result<Outcome<S::Reply>, StepFault>
        requires { IsGoing self.old client }
        ensures { Tries S.reply_in self.old client (pick row) result self.new }
    {
        let Some(object) = self.held_by(client) else {
            return Err(StepFault::NotNow);
        };
        if !self.is_hand_free(object) {
            return Err(StepFault::NotNow);
        }
        let Some(request) = self.posted_at(row, object) else {
            return Err(StepFault::NotNow);
        };
        self.hands[object as usize] = Some(row);
        self.stages[row as usize] = Stage::Picked(request);
        Ok(Outcome::Done)
    }

    pub(crate) fn put_back(&mut self, client: u32) -> Result<Outcome<S::Reply>, StepFault>
        requires { IsGoing self.old client }
        ensures { Tries S.reply_in self.old client put_back result self.new }
    {
        let Some((object, row, request)) = self.in_hand(client) else {
            return Err(StepFault::NotNow);
        };
        if self.is_possible(object, &request) {
            return Err(StepFault::NotNow);
        }
        self.hands[object as usize] = None;
        self.stages[row as usize] = Stage::Posted(request);
        Ok(Outcome::Done)
    }

    pub(crate) fn answer(&mut self, client: u32) -> Result<Outcome<S::Reply>, StepFault>
        requires { IsGoing self.old client }
        ensures { Tries S.reply_in self.old client answer result self.new }
    {
        let Some((object, row, request)) = self.in_hand(client) else {
            return Err(StepFault::NotNow);
        };
        if !self.is_possible(object, &request) {
            return Err(StepFault::NotNow);
        }
        let x = object as usize;
        let answer = serve(&mut self.objects[x], &mut self.logs[x], row, &request);
        self.hands[x] = None;
        self.stages[row as usize] = Stage::Answered(request, answer);
        Ok(Outcome::Answered(answer))
    }
}
