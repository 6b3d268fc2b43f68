//! The machine.

ghost use Rattle.std.specs.Prelude.{◌≡◌, ◌<◌, All, length, map, IfOk, IfErr, OnErr};
ghost use Rattle.model.specs.Objects.{empty, kind_with};

use crate::step::{Outcome, Stage, Step, StepFault};
use desk_model::{JournalEvent, LogEntry};
use seq_objects::SeqObject;
use std::alloc::{AllocError, Global};
use std::marker::Model;

/// Objects and clients, each by number, and the clock. No two steps of it happen at once.
#[derive(Drop)]
pub struct Machine<S: SeqObject> {
    pub(crate) objects: Vec<S>,
    pub(crate) logs: Vec<Vec<LogEntry<S::Op, S::Reply>>>,
    // The client that holds the object, and the row that it has in hand.
    pub(crate) holders: Vec<Option<u32>>,
    pub(crate) hands: Vec<Option<u32>>,
    pub(crate) stages: Vec<Stage<S::Op, S::Reply>>,
    pub(crate) journals: Vec<Vec<JournalEvent<S::Op, S::Reply>>>,
    pub(crate) ended: Vec<bool>,
    pub(crate) clock: u64,
    pub(crate) quota: u32,
}

impl<S: SeqObject> Model for Machine<S> {
    ghost use Rattle.std.specs.Prelude.{map};
    ghost use Rattle.recorder.specs.Records.{items_of_each};
    ghost use Rattle.machine.specs.Machines.{State, IsMachine, state_of};

    ghost Value = { State };

    ghost view = { λ m. state_of S.content S.op_in S.reply_in m.objects.items
        (items_of_each m.logs.items) m.holders.items m.hands.items m.stages.items
        (items_of_each m.journals.items) m.ended.items m.clock m.quota };

    ghost invariant = { λ m. IsMachine (map S.content m.objects.items) (state_of S.content S.op_in
        S.reply_in m.objects.items (items_of_each m.logs.items) m.holders.items m.hands.items
        m.stages.items (items_of_each m.journals.items) m.ended.items m.clock m.quota) };
}

impl<S: SeqObject> Machine<S> {
    ghost use Rattle.std.specs.Prelude.{OnOk};
    ghost use Rattle.machine.specs.Machines.{HasRun, world_of};
    ghost use Rattle.machine.specs.Runs.{IsImpossible};
    ghost use Rattle.machine.specs.Steps.{IsStepTaken, IsOutcome, IsDraw, IsPossible, step_in};

    /// Takes one step of a client. A step is not possible now too if there is no such client,
    /// object or row, or the operation is of another kind than the object. If it is not taken
    /// nothing changes.
    pub fn step(&mut self, client: u32, step: Step<S::Op>) -> Result<Outcome<S::Reply>, StepFault>
        ensures taken { OnOk result (IsStepTaken self.old client (step_in S.op_in step) self.new) }
        ensures outcome { IfOk result
            (IsOutcome S.reply_in self.old client (step_in S.op_in step) self.new) }
        // With `taken` and `memory`: it is refused as not possible now exactly if it is possible
        // in no way.
        ensures not_now { IfErr result (λ e. e ≡ StepFault.NotNow →
            IsImpossible self.old.kinds self.old.quota (world_of self.old)
            (client, step_in S.op_in step)) }
        ensures memory { IfErr result (λ e. e ≡ StepFault.NoMemory →
            IsDraw (step_in S.op_in step) × IsPossible self.old client (step_in S.op_in step)) }
        ensures unchanged { OnErr result (self.new ≡ self.old) }
        // The world is that of a run, before and after.
        ensures run { HasRun self.new }
    {
        if !self.is_going(client) {
            return Err(StepFault::NotNow);
        }
        match step {
            Step::Draw(call) => self.draw(client, call),
            Step::Post => self.post(client),
            Step::Win(object) => self.win(client, object),
            Step::Pick(row) => self.pick(client, row),
            Step::Answer => self.answer(client),
            Step::PutBack => self.put_back(client),
            Step::Take => self.take(client),
            Step::Release => self.release(client),
            Step::End => self.end(client),
        }
    }
}
