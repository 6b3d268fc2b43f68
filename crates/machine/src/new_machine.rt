//! A new machine.

ghost use Rattle.std.specs.Prelude.{◌≡◌, ◌<◌, [], length, map, replicate, All, IfOk, ◌+◌};
ghost use Rattle.model.specs.Objects.{empty, kind_with};
ghost use Rattle.recorder.specs.Records.{items_of_each};
ghost use Rattle.machine.specs.Machines.{clients_of, world_of};
ghost use Rattle.machine.specs.Runs.{start_world};
ghost use Rattle.desk_model.specs.Limits.{max_objects, max_clients, max_calls};

use crate::machine::Machine;
use crate::step::Stage;
use seq_objects::SeqObject;
use std::alloc::{AllocError, Global};

/// The value n times.
fn copies<T: Copy + Drop>(alloc: Global, count: usize, value: T) -> Result<Vec<T>, AllocError>
    ensures { IfOk result (λ v. v.items ≡ replicate count value) }
{
    let mut values = Vec::new(alloc);
    'copying: while values.len() < count {
        values.push(value)?;
    }
    Ok(values)
}

/// This many empty lists.
fn lists<T: Drop>(alloc: Global, count: usize) -> Result<Vec<Vec<T>>, AllocError>
    ensures { IfOk result (λ v. items_of_each v.items ≡ replicate count []) }
{
    let mut lists = Vec::new(alloc);
    'listing: while lists.len() < count {
        lists.push(Vec::new(alloc))?;
    }
    Ok(lists)
}

impl<S: SeqObject> Machine<S> {
    /// Makes a machine for these empty objects and this many clients, each of which may make this
    /// many calls. All clients are idle, and nothing has happened.
    pub fn new(
        alloc: Global,
        objects: Vec<S>,
        clients: u32,
        quota: u32,
    ) -> Result<Machine<S>, AllocError>
        requires objects { (0 < length objects.items) × (length objects.items < 1 + max_objects)
            × All (λ o. S.content o ≡ empty (kind_with (S.content o))) objects.items }
        requires clients { (0 < clients) × (clients < 1 + max_clients) }
        requires quota { quota < 1 + max_calls }
        ensures kinds { IfOk result (λ m. m.kinds
            ≡ map (λ o. kind_with (S.content o)) objects.items) }
        ensures counts { IfOk result (λ m. (clients_of m ≡ clients) × (m.quota ≡ quota)) }
        ensures start { IfOk result (λ m. world_of m ≡ start_world clients) }
    {
        let count = objects.len();
        let rows = clients as usize;
        let logs = lists(alloc, count)?;
        let holders = copies(alloc, count, None)?;
        let hands = copies(alloc, count, None)?;
        let stages = copies(alloc, rows, Stage::Idle)?;
        let journals = lists(alloc, rows)?;
        let ended = copies(alloc, rows, false)?;
        Ok(Machine {
            objects,
            logs,
            holders,
            hands,
            stages,
            journals,
            ended,
            clock: 0,
            quota,
        })
    }
}
