//! What a client may do, and the result.

use desk_model::{Answer, Request};
use std::alloc::{AllocError, AllocFailed};

/// One step of one client.
#[derive(Clone, Copy)]
pub enum Step<O> {
    /// Draws the ticket of a call on an object, or else that of the return.
    Draw(Option<(u32, O)>),
    /// Puts the request into the own row.
    Post,
    /// Takes hold of an object that is free.
    Win(u32),
    /// Picks up the request of a row for the object that is held.
    Pick(u32),
    /// Does the operation of the request in hand, logs it, and answers.
    Answer,
    /// Puts a request whose operation is not possible now back into its row.
    PutBack,
    /// Takes the answer out of the own row.
    Take,
    /// Lets go of the object.
    Release,
    /// Leaves, for good.
    End,
}

/// The result of a step.
#[derive(Clone, Copy, Debug, PartialEq, Eq)]
pub enum Outcome<R> {
    /// The ticket that was drawn.
    Drew(u64),
    /// What was answered to the request in hand.
    Answered(Answer<R>),
    Done,
}

/// Why a step was not taken. Nothing has changed.
#[derive(Clone, Copy, Debug, PartialEq, Eq)]
pub enum StepFault {
    /// It is not possible now, or there is no such client, object or row.
    NotNow,
    /// An allocation for the journal failed, at a draw.
    NoMemory,
}

impl From<AllocError> for StepFault {
    ghost use Rattle.std.specs.Prelude.{◌≡◌};
    ghost use Rattle.machine.specs.declared.step.StepFault.TheVariants.{NoMemory};

    ghost from_gives = { λ _ e. e ≡ NoMemory };

    fn from(_refused: AllocError) -> StepFault {
        StepFault::NoMemory
    }
}

impl<T: Drop> From<AllocFailed<T>> for StepFault {
    ghost use Rattle.std.specs.Prelude.{◌≡◌};
    ghost use Rattle.machine.specs.declared.step.StepFault.TheVariants.{NoMemory};

    ghost from_gives = { λ _ e. e ≡ NoMemory };

    fn from(_refused: AllocFailed<T>) -> StepFault {
        StepFault::NoMemory
    }
}

/// How far a client's call has come.
#[derive(Clone, Copy)]
pub enum Stage<O, R> {
    Idle,
    /// The call has its ticket.
    Drawn(Request<O>),
    /// Its request is in the client's row.
    Posted(Request<O>),
    /// It was picked up by the holder of its object.
    Picked(Request<O>),
    /// Its answer is in the client's row.
    Answered(Request<O>, Answer<R>),
    /// The client has the answer, and has not yet drawn the ticket of the return.
    Taken(Request<O>, Answer<R>),
}
