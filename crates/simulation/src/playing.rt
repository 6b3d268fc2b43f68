//! A machine that takes the steps of a schedule.

ghost use Rattle.std.specs.Prelude.{◌≡◌, ◌<◌, ◌≤◌, ℕ, length, map, All, IfOk, IfErr, IsSome, Some};
ghost use Rattle.model.specs.Objects.{empty, kind_with};
ghost use Rattle.seq_objects.specs.AnyContent.{content_of};
ghost use Rattle.machine.specs.Machines.{clients_of, world_of};
ghost use Rattle.machine.specs.Runs.{start_world};
ghost use Rattle.simulation.specs.Plays.{IsPlayed, header_kinds};
ghost use Rattle.simulation.specs.Simulations.{IsPlayFault};
ghost use Rattle.simulation.specs.Schedules.{IsWithin};

use crate::{Header, Schedule};
use machine::{Machine, Ran};
use recorder::Record;
use seq_objects::AnyObject;
use std::alloc::{AllocError, Global};

/// The record of a schedule, and how many of its steps were not possible at their turn.
#[derive(Drop)]
pub struct Played {
    pub record: Record<AnyObject>,
    pub refused: usize,
}

/// Why there is no record.
#[derive(Clone, Copy, Debug, PartialEq, Eq)]
pub enum PlayFault {
    /// This client has not ended, and each before it has.
    NotEnded(u32),
    NoMemory,
}

/// The objects that the header asks for, all empty.
fn objects_of(alloc: Global, header: &Header) -> Result<Vec<AnyObject>, AllocError>
    ensures kinds { IfOk result (λ v. map (λ o. kind_with (content_of o)) v.items
        ≡ header_kinds header.now) }
    ensures empty { IfOk result (λ v. All (λ o. content_of o
        ≡ empty (kind_with (content_of o))) v.items) }
{
    let mut objects = Vec::new(alloc);
    for object in 0..header.objects {
        objects.push(AnyObject::empty(alloc, header.kinds.kind(object)))?;
    }
    Ok(objects)
}

/// Makes the machine that the header asks for, before any step: this many clients, and empty
/// objects. It fails only on an allocation failure.
pub fn machine_of(alloc: Global, header: &Header) -> Result<Machine<AnyObject>, AllocError>
    requires { IsWithin header.now }
    ensures kinds { IfOk result (λ m. m.kinds ≡ header_kinds header.now) }
    ensures counts { IfOk result (λ m. (clients_of m ≡ header.now.clients)
        × (m.quota ≡ header.now.quota)) }
    ensures start { IfOk result (λ m. world_of m ≡ start_world header.now.clients) }
{
    let objects = objects_of(alloc, header)?;
    Machine::new(alloc, objects, header.clients, header.quota)
}

/// Takes the steps of the schedule, and returns the record once all clients have ended.
pub fn play(alloc: Global, schedule: &Schedule) -> Result<Played, PlayFault>
    requires { IsWithin schedule.now.header }
    ensures played { IfOk result (λ p.
        IsPlayed schedule.now.header schedule.now.steps.items p.refused p.record) }
    ensures fault { IfErr result (IsPlayFault schedule.now.header schedule.now.steps.items) }
{
    let Ok(mut machine) = machine_of(alloc, &schedule.header) else {
        return Err(PlayFault::NoMemory);
    };
    let Ok(Ran { refused }) = machine.run(&schedule.steps) else {
        return Err(PlayFault::NoMemory);
    };
    match machine.finish() {
        Ok(record) => Ok(Played { record, refused }),
        Err((_, client)) => Err(PlayFault::NotEnded(client)),
    }
}
