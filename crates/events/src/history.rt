//! A history: a proper list of client events.

ghost use Rattle.std.specs.Prelude.{◌≡◌};

use crate::event::Event;
use std::marker::Model;

/// A history. Its events are proper: numbers rise, a process invokes only while it is idle, a
/// completion answers the operation that is outstanding on its object with a reply of its shape,
/// nothing follows Info, and the operations on one object are of one kind.
#[derive(Debug, Drop)]
pub struct History {
    events: Vec<Event>,
}

impl Model for History {
    ghost use Rattle.std.specs.Prelude.{List};
    ghost use Rattle.events.specs.declared.event.Event.{Event};
    ghost use Rattle.events.specs.Events.{IsProper};

    ghost Value = { List Event };

    ghost view = { λ h. h.events.items };

    ghost invariant = { λ h. IsProper h.events.items };
}

impl History {
    ghost use Rattle.events.specs.Events.{IsProper, denoted};
    ghost use Rattle.model.specs.Orders.{IsHistory};

    /// The history of these events.
    pub fn new(events: Vec<Event>) -> History
        requires { IsProper events.items }
        ensures { result ≡ events.items }
    {
        History { events }
    }

    pub fn events(&self) -> &[Event]
        ensures events { result.now ≡ self.now }
        ensures proper { IsProper self.now }
        // What the events denote is a well-formed history.
        ensures history { IsHistory (denoted self.now) }
    {
        self.events.as_slice()
    }
}
