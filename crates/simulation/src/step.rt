//! The steps of a schedule.

ghost use Rattle.std.specs.Prelude.{◌≡◌, Some, codes, option_and_then, option_map};
ghost use Rattle.edn_reader.specs.Datum.{dictionary, entries_of};
ghost use Rattle.edn_reader.specs.View.{view, pair_views};
ghost use Rattle.edn.specs.Fields.{keyword_in, value_at};
ghost use Rattle.simulation.specs.Schedules as spec;

use crate::header::{MAX_CLIENTS, MAX_OBJECTS, number_at};
use edn::{Form, Name, keyword, same_bytes, value_at};
use history::{function, plain_value};
use machine::Step;
use model::AnyOp;
use seq_objects::op_of;

/// The operation that the function's name and the map's value make.
fn op_named(name: &[u8], entries: &[(Name, Form)]) -> Option<AnyOp>
    ensures { result ≡ spec.op_named name.now (entries_of (pair_views entries.now)) }
{
    let function = function(name)?;
    op_of(function, plain_value(value_at(entries, b"value"))?)
}

/// The operation that the function and the map's value make.
fn op_in(function: &Form, entries: &[(Name, Form)]) -> Option<AnyOp>
    ensures { result ≡ option_and_then (λ k. spec.op_named k (entries_of (pair_views entries.now)))
        (keyword_in (Some (view function.now))) }
{
    op_named(keyword(Some(function))?.as_bytes(), entries)
}

fn call_with(object: Option<u32>, op: Option<AnyOp>) -> Option<Step<AnyOp>>
    ensures { result ≡ spec.call_with object op }
{
    Some(Step::Draw(Some((object?, op?))))
}

/// The number of an object that the map has.
fn object_at(entries: &[(Name, Form)]) -> Option<u32>
    ensures { result ≡ spec.object_of_step (entries_of (pair_views entries.now)) }
{
    number_at(entries, b"object", 0, MAX_OBJECTS - 1)
}

/// The number of a client that the map has for the key.
fn client_at(entries: &[(Name, Form)], key: &[u8]) -> Option<u32>
    ensures { result ≡ spec.client_at key.now (entries_of (pair_views entries.now)) }
{
    number_at(entries, key, 0, MAX_CLIENTS - 1)
}

/// The draw of a call, if there is a function, or else of a return.
fn draw_in(entries: &[(Name, Form)]) -> Option<Step<AnyOp>>
    ensures { result ≡ spec.draw_with (value_at (codes "f") (entries_of (pair_views entries.now)))
        (entries_of (pair_views entries.now)) }
{
    match value_at(entries, b"f") {
        None => Some(Step::Draw(None)),
        Some(function) => call_with(object_at(entries), op_in(function, entries)),
    }
}

fn win_in(entries: &[(Name, Form)]) -> Option<Step<AnyOp>>
    ensures { result ≡ option_map Step.Win
        (spec.object_of_step (entries_of (pair_views entries.now))) }
{
    Some(Step::Win(object_at(entries)?))
}

fn pick_in(entries: &[(Name, Form)]) -> Option<Step<AnyOp>>
    ensures { result ≡ option_map Step.Pick
        (spec.client_at (codes "row") (entries_of (pair_views entries.now))) }
{
    Some(Step::Pick(client_at(entries, b"row")?))
}

/// The step of this name.
fn step_named(name: &[u8], entries: &[(Name, Form)]) -> Option<Step<AnyOp>>
    ensures { result ≡ spec.step_named name.now (entries_of (pair_views entries.now)) }
{
    if same_bytes(name, b"draw") {
        draw_in(entries)
    } else if same_bytes(name, b"post") {
        Some(Step::Post)
    } else if same_bytes(name, b"win") {
        win_in(entries)
    } else if same_bytes(name, b"pick") {
        pick_in(entries)
    } else if same_bytes(name, b"answer") {
        Some(Step::Answer)
    } else if same_bytes(name, b"put-back") {
        Some(Step::PutBack)
    } else if same_bytes(name, b"take") {
        Some(Step::Take)
    } else if same_bytes(name, b"release") {
        Some(Step::Release)
    } else if same_bytes(name, b"end") {
        Some(Step::End)
    } else {
        None
    }
}

fn step_in(entries: &[(Name, Form)]) -> Option<(u32, Step<AnyOp>)>
    ensures { result ≡ spec.step_of (dictionary (entries_of (pair_views entries.now))) }
{
    let client = client_at(entries, b"client")?;
    let name = keyword(value_at(entries, b"step"))?;
    Some((client, step_named(name.as_bytes(), entries)?))
}

/// The step of a client that the form is, if it is one.
#[tactic(auto, using(edn_reader::proofs::Pairs::map_view))]
pub(crate) fn step_of(form: &Form) -> Option<(u32, Step<AnyOp>)>
    ensures { result ≡ spec.step_of (view form.now) }
{
    match form {
        Form::Map(entries) => step_in(entries),
        _ => None,
    }
}
