//! Whether a form keeps the limits of a text.

ghost use Rattle.std.specs.Prelude.{◌≡◌, ◌↔◌, IsTrue};
ghost use Rattle.edn_reader.specs.Datum.{max_open, DatumFits, ItemsFit, EntriesFit};
ghost use Rattle.edn_reader.specs.Reading.{has_key};
ghost use Rattle.edn_reader.specs.View.{view, pair_views, items_in, entries_in};

use crate::form::{Form, Name};
use crate::levels::MAX_OPEN;

/// Whether one of the pairs has this key. They are gone through one by one.
fn is_among(pairs: &[(Name, Form)], name: &[u8]) -> bool
    ensures { result ≡ has_key name.now (pair_views pairs.now) }
{
    let mut rest = pairs;
    'pairs: while let [pair, tail @ ..] = rest {
        if name == pair.0.as_bytes() {
            return true;
        }
        rest = tail;
    }
    false
}

/// Whether the keys of each map are distinct and at most 16 vectors and maps are in one another, as
/// in each form that was read. It takes no memory, and compares the keys of a map pair by pair.
pub fn fits(form: &Form) -> bool
    ensures { IsTrue result ↔ DatumFits max_open (view form.now) }
{
    fits_within(form, MAX_OPEN)
}

/// Whether the form fits if this many vectors and maps may still be opened.
#[cycle(fits)]
fn fits_within(form: &Form, depth: usize) -> bool
    ensures { IsTrue result ↔ DatumFits depth (view form.now) }
{
    match form {
        Form::Vector(forms) => depth > 0 && items_fit(forms, depth - 1),
        Form::Map(entries) => depth > 0 && entries_fit(entries, depth - 1),
        _ => true,
    }
}

#[cycle(fits)]
fn items_fit(forms: &Vec<Form>, depth: usize) -> bool
    ensures { IsTrue result ↔ ItemsFit depth (items_in forms.now) }
{
    for form in forms {
        if !fits_within(form, depth) {
            return false;
        }
    }
    true
}

#[cycle(fits)]
fn entries_fit(entries: &Vec<(Name, Form)>, depth: usize) -> bool
    ensures { IsTrue result ↔ EntriesFit depth (entries_in entries.now) }
{
    for (i, entry) in entries.iter().enumerate() {
        let (_, later) = entries.split_at(i + 1);
        if is_among(later, entry.0.as_bytes()) {
            return false;
        }
        if !fits_within(&entry.1, depth) {
            return false;
        }
    }
    true
}
