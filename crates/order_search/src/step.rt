//! What an operation replied, and what undoes it.

ghost use Rattle.std.specs.Prelude.{◌≡◌};

use model::AnyReply;

/// What brings back the content before an operation.
#[derive(Clone, Copy, Debug, Drop)]
pub enum Undo {
    /// The operation left the content as it was.
    Nothing,
    TakeFirst,
    TakeLast,
    /// Takes the value at this place.
    TakeAt(usize),
    PutFirst(i64),
    SetRegister(Option<i64>),
    /// Gives a key its value, or none.
    SetKey(i64, Option<i64>),
    SetHeld(bool),
    /// Adds an element of a set, or removes it.
    SetElement(i64, bool),
    SetCount(i64),
    SetOwner(Option<i64>),
}

#[derive(Clone, Copy, Debug, Drop)]
pub struct Step {
    pub reply: AnyReply,
    pub undo: Undo,
}

impl Step {
    pub(crate) fn new(reply: AnyReply, undo: Undo) -> Step
        ensures { result ≡ record { reply = reply; undo = undo } }
    {
        Step { reply, undo }
    }
}
