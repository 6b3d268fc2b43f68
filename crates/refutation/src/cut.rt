//! One cut, from a form.

ghost use Rattle.std.specs.Prelude.{◌≡◌, [], map, Option, None, IfOk, option_map};
ghost use Rattle.edn_reader.specs.Datum.{entries_of, items_of};
ghost use Rattle.edn_reader.specs.View.{view, views, pair_views};
ghost use Rattle.refutation.specs.Denotes as spec;

use crate::sets::{number, numbers, values};
use cuts::Cut;
use edn::{Form, Name, value_at};
use std::alloc::{AllocError, Global};

/// The integer under a key.
fn int_at(entries: &[(Name, Form)], key: &[u8]) -> Option<i64>
    ensures { result ≡ spec.int_at key.now (entries_of (pair_views entries.now)) }
{
    match value_at(entries, key) {
        Some(form) => edn::integer(form),
        None => None,
    }
}

/// The integer under a key, or none if the map has no such key. `None`: the value is no integer.
pub(crate) fn optional_int_at(entries: &[(Name, Form)], key: &[u8]) -> Option<Option<i64>>
    ensures { result ≡ spec.optional_int_at key.now (entries_of (pair_views entries.now)) }
{
    match value_at(entries, key) {
        None => Some(None),
        Some(form) => edn::integer(form).map(Some),
    }
}

/// A value, and the number before which it is absent.
fn without_in(entries: &[(Name, Form)]) -> Option<Cut>
    ensures { option_map spec.seen_cut result
        ≡ spec.without_of (entries_of (pair_views entries.now)) }
{
    let value = int_at(entries, b"without")?;
    let before = number(value_at(entries, b"before"))?;
    Some(Cut::Without { value, before })
}

/// What is kept of values or keys, and of the others by number.
fn keep_in(alloc: Global, entries: &[(Name, Form)]) -> Result<Option<Cut>, AllocError>
    ensures { IfOk result (λ o. option_map spec.seen_cut o
        ≡ spec.keep_of (entries_of (pair_views entries.now))) }
{
    let Some(values) = values(alloc, value_at(entries, b"keep"))? else {
        return Ok(None);
    };
    match numbers(alloc, value_at(entries, b"numbers"))? {
        Some(numbers) => Ok(Some(Cut::Keep { values, numbers })),
        None => Ok(None),
    }
}

/// A register's cell, or that of a key of a map.
fn cell_in(alloc: Global, entries: &[(Name, Form)]) -> Result<Option<Cut>, AllocError>
    ensures { IfOk result (λ o. option_map spec.seen_cut o
        ≡ spec.cell_of (entries_of (pair_views entries.now))) }
{
    let Some(values) = values(alloc, value_at(entries, b"cell"))? else {
        return Ok(None);
    };
    let Some(other) = int_at(entries, b"other") else {
        return Ok(None);
    };
    let Some(numbers) = numbers(alloc, value_at(entries, b"numbers"))? else {
        return Ok(None);
    };
    let Some(key) = optional_int_at(entries, b"key") else {
        return Ok(None);
    };
    match key {
        Some(key) => Ok(Some(Cut::Entry {
            key,
            values,
            other,
            numbers,
        })),
        None => Ok(Some(Cut::Cell {
            values,
            other,
            numbers,
        })),
    }
}

/// The cut that the pairs of a map name.
fn cut_of(alloc: Global, entries: &[(Name, Form)]) -> Result<Option<Cut>, AllocError>
    ensures { IfOk result (λ o. option_map spec.seen_cut o
        ≡ spec.cut_of (entries_of (pair_views entries.now))) }
{
    let until = value_at(entries, b"until");
    if until.is_some() {
        return Ok(number(until).map(Cut::Until));
    }
    let from = value_at(entries, b"from");
    if from.is_some() {
        return Ok(number(from).map(Cut::From));
    }
    if value_at(entries, b"without").is_some() {
        return Ok(without_in(entries));
    }
    if value_at(entries, b"keep").is_some() {
        return keep_in(alloc, entries);
    }
    cell_in(alloc, entries)
}

/// The cut that a form is.
#[tactic(auto, using(edn_reader::proofs::Pairs::map_view))]
fn cut_in(alloc: Global, form: &Form) -> Result<Option<Cut>, AllocError>
    ensures { IfOk result (λ o. option_map spec.seen_cut o ≡ spec.cut_in (view form.now)) }
{
    match form {
        Form::Map(entries) => cut_of(alloc, entries),
        _ => Ok(None),
    }
}

/// The cuts that the forms are, one by one and in order, if all are cuts.
fn cuts_of(alloc: Global, forms: &[Form]) -> Result<Option<Vec<Cut>>, AllocError>
    ensures { IfOk result (λ o. option_map (λ v. map spec.seen_cut v.items) o
        ≡ spec.cuts_with [] (items_of (views forms.now))) }
{
    let mut cuts = Vec::new(alloc);
    for form in forms {
        let Some(cut) = cut_in(alloc, form)? else {
            return Ok(None);
        };
        cuts.push(cut)?;
    }
    Ok(Some(cuts))
}

/// The cuts of a reason; none if the map does not name them.
#[tactic(auto, using(edn_reader::proofs::Pairs::vector_view))]
pub(crate) fn cuts(alloc: Global, form: Option<&Form>) -> Result<Option<Vec<Cut>>, AllocError>
    ensures { IfOk result (λ o. option_map (λ v. map spec.seen_cut v.items) o
        ≡ spec.cuts_in (option_map (λ f. view f.now) form.entry)) }
{
    match form {
        None => Ok(Some(Vec::new(alloc))),
        Some(Form::Vector(forms)) => cuts_of(alloc, forms),
        Some(_) => Ok(None),
    }
}
