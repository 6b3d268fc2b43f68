//! The header of a schedule.

ghost use Rattle.std.specs.Prelude.{◌≡◌, ◌<◌, ◌≤◌, IfSome, Some, option_map};
ghost use Rattle.edn_reader.specs.Datum.{dictionary, entries_of};
ghost use Rattle.edn_reader.specs.View.{view, pair_views};
ghost use Rattle.simulation.specs.Schedules as spec;
ghost use Rattle.simulation.specs.Schedules.{IsWithin};

use edn::{Form, Name, keyword, natural, value_at};
use seq_objects::{Kinds, kinds_named};

/// The most objects of a machine.
pub(crate) const MAX_OBJECTS: u32 = 16;

/// The most clients of a machine.
pub(crate) const MAX_CLIENTS: u32 = 32;

/// The most calls of each client.
const MAX_CALLS: u32 = 10_000;

/// The objects and clients of a machine.
#[derive(Clone, Copy, Debug, PartialEq, Eq)]
pub struct Header {
    pub kinds: Kinds,
    /// How many objects, from 1 to 16.
    pub objects: u32,
    /// How many clients, from 1 to 32.
    pub clients: u32,
    /// How many calls each client may make, at most 10,000.
    pub quota: u32,
}

/// The number, if it is within these bounds.
fn number_within(low: u32, high: u32, value: Option<u64>) -> Option<u32>
    ensures number { result ≡ spec.number_within low high value }
    ensures within { IfSome result (λ n. (low ≤ n) × (n ≤ high)) }
{
    match value {
        Some(n) if u64::from(low) <= n && n <= u64::from(high) => Some(n as u32),
        _ => None,
    }
}

/// The number that the map has for the key, if it is within these bounds.
pub(crate) fn number_at(entries: &[(Name, Form)], key: &[u8], low: u32, high: u32) -> Option<u32>
    ensures number { result
        ≡ spec.number_at key.now low high (entries_of (pair_views entries.now)) }
    ensures within { IfSome result (λ n. (low ≤ n) × (n ≤ high)) }
{
    number_within(low, high, natural(value_at(entries, key)))
}

fn header_in(entries: &[(Name, Form)]) -> Option<Header>
    ensures header { result ≡ spec.header_of (dictionary (entries_of (pair_views entries.now))) }
    ensures within { IfSome result IsWithin }
{
    let kinds = kinds_named(keyword(value_at(entries, b"kind"))?.as_bytes())?;
    let objects = number_at(entries, b"objects", 1, MAX_OBJECTS)?;
    let clients = number_at(entries, b"clients", 1, MAX_CLIENTS)?;
    let quota = number_at(entries, b"quota", 0, MAX_CALLS)?;
    Some(Header {
        kinds,
        objects,
        clients,
        quota,
    })
}

/// The header that the form is, if it is one.
#[tactic(auto, using(edn_reader::proofs::Pairs::map_view))]
pub(crate) fn header_of(form: &Form) -> Option<Header>
    ensures header { result ≡ spec.header_of (view form.now) }
    ensures within { IfSome result IsWithin }
{
    match form {
        Form::Map(entries) => header_in(entries),
        _ => None,
    }
}
