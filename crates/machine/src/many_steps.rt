//! Many steps, and the end.

ghost use Rattle.std.specs.Prelude.{◌≡◌, ◌≢◌, ℕ, ◌<◌, ◌≤◌, true, false, length, map, take};
ghost use Rattle.std.specs.Prelude.{slice_get, IfOk, IfErr, IfSome, IfNone, OnErr, Some, [], ◌∷◌};
ghost use Rattle.desk_model.specs.World.{journal_in};
ghost use Rattle.desk_model.specs.Records.{IsSoundRecord};
ghost use Rattle.desk_model.specs.Images.{entry_in, event_in};
ghost use Rattle.recorder.specs.Records.{journal_at, log_at};
ghost use Rattle.machine.specs.Machines.{HasRun, clients_of, world_of};
ghost use Rattle.machine.specs.Runs.{TakesPossible};
ghost use Rattle.machine.specs.declared.step.Step.{Step};
ghost use Rattle.machine.specs.Steps.{IsLike, IsPossibleDraw, step_in, steps_in, HasEnded};

use crate::machine::Machine;
use crate::step::{Step, StepFault};
use recorder::Record;
use seq_objects::SeqObject;
use std::alloc::AllocError;

/// The result of a list of steps: how many were not possible at their turn, and were skipped.
#[derive(Clone, Copy, Debug, PartialEq, Eq)]
pub struct Ran {
    pub refused: usize,
}

/// An allocation failed at the step of this number. The machine is as it was before that step.
#[derive(Clone, Copy, Debug, PartialEq, Eq)]
pub struct NoMemoryAt {
    pub step: usize,
}

impl<S: SeqObject> Machine<S> {
    /// Takes the steps in turn, each by its client. Those that are not possible at their turn are
    /// counted.
    pub fn run(&mut self, steps: &[(u32, Step<S::Op>)]) -> Result<Ran, NoMemoryAt>
        ensures ran { IfOk result (λ r.
            TakesPossible self.old.kinds self.old.quota (world_of self.old)
            (steps_in S.op_in steps.now) r.refused (world_of self.new)) }
        ensures before { IfErr result (λ e. (e.step < length steps.now) × (refused : ℕ)
            × TakesPossible self.old.kinds self.old.quota (world_of self.old)
            (steps_in S.op_in (take e.step steps.now)) refused (world_of self.new)) }
        // The step of that number is a draw that is possible now.
        ensures draw { IfErr result (λ e. (m : ℕ × Step S.Op)
            × (slice_get steps.now e.step ≡ Some m)
            × IsPossibleDraw self.new (m.0, step_in S.op_in m.1)) }
        ensures same { IsLike self.old self.new }
        ensures run { HasRun self.new }
    {
        // What holds of a machine is known once it is read.
        let _clock = self.clock;
        let mut refused = 0;
        for (at, taken) in steps.iter().enumerate() {
            let (client, step) = *taken;
            match self.turn(client, step) {
                Ok(passed) => refused += passed,
                Err(_) => return Err(NoMemoryAt { step: at }),
            }
        }
        Ok(Ran { refused })
    }

    /// Takes one step, or counts it if it is not possible now.
    fn turn(&mut self, client: u32, step: Step<S::Op>) -> Result<usize, AllocError>
        ensures ok { IfOk result (λ n.
            TakesPossible self.old.kinds self.old.quota (world_of self.old)
            ((client, step_in S.op_in step) ∷ []) n (world_of self.new)) }
        ensures few { IfOk result (λ n. n ≤ 1) }
        ensures like { IsLike self.old self.new }
        ensures run { HasRun self.new }
        ensures err { OnErr result ((self.new ≡ self.old)
            × IsPossibleDraw self.new (client, step_in S.op_in step)) }
    {
        match self.step(client, step) {
            Ok(_) => Ok(0),
            Err(StepFault::NotNow) => Ok(1),
            Err(StepFault::NoMemory) => Err(AllocError),
        }
    }

    /// The least client that has not ended.
    fn first_going(&self) -> Option<u32>
        ensures going { IfSome result (λ c. (c < clients_of self.now)
            × ((world_of self.now).ended c ≡ false)
            × ((d : ℕ) → d < c → HasEnded self.now d)) }
        ensures none { IfNone result ((d : ℕ) → d < clients_of self.now → HasEnded self.now d) }
    {
        for client in 0..self.clients() {
            if self.is_going(client) {
                return Some(client);
            }
        }
        None
    }

    /// Returns the record of the machine's own world, once all clients have ended; or the machine,
    /// and the least client that has not. It takes no memory.
    pub fn finish(self) -> Result<Record<S>, (Machine<S>, u32)>
        ensures ended { IfOk result (λ _. (c : ℕ) → c < clients_of self → HasEnded self c) }
        ensures journals { IfOk result (λ r. (c : ℕ) →
            map (event_in S.op_in S.reply_in) (journal_at r c) ≡ journal_in (world_of self) c) }
        ensures logs { IfOk result (λ r. (x : ℕ) →
            map (entry_in S.op_in S.reply_in) (log_at r x) ≡ (world_of self).log x) }
        ensures counts { IfOk result (λ r. (length r.journals ≡ clients_of self)
            × (length r.logs ≡ length self.kinds)) }
        // The world is that of a run, and so the record is sound.
        ensures run { HasRun self }
        ensures sound { IfOk result (λ r.
            IsSoundRecord self.kinds self.quota
            (λ c. map (event_in S.op_in S.reply_in) (journal_at r c))
            (λ x. map (entry_in S.op_in S.reply_in) (log_at r x))) }
        ensures going { IfErr result (λ e. (e.0 ≡ self) × (e.1 < clients_of self)
            × ((world_of self).ended e.1 ≡ false) × ((d : ℕ) → d < e.1 → HasEnded self d)) }
    {
        match self.first_going() {
            Some(client) => Err((self, client)),
            None => {
                let Machine { logs, journals, .. } = self;
                Ok(Record::new(journals, logs))
            }
        }
    }
}
