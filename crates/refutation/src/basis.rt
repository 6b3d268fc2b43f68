//! Reads the basis of a reason from a form. Each function returns `None` if the form, or the map
//! with these entries, does not say what it reads.

ghost use Rattle.std.specs.Prelude.{◌≡◌, Option, option_map, codes};
ghost use Rattle.edn.specs.Fields.{value_at};
ghost use Rattle.edn_reader.specs.Datum.{entries_of};
ghost use Rattle.edn_reader.specs.View.{view, pair_views};
ghost use Rattle.refutation.specs.Denotes as spec;

use crate::cut::optional_int_at;
use crate::sets::number;
use crate::{Basis, Trial};
use cuts::{Count, Counted};
use edn::{Form, Name, same_bytes, value_at};
use order_search::TryFirst;

/// Reads which content is counted: `:value`, `:key` and `:value`, `:key` alone, `:held` or `:free`.
/// If the map mixes them, `:key` and `:value` come before `:held`, and `:held` before `:free`.
fn read_counted(entries: &[(Name, Form)]) -> Option<Counted>
    ensures { result ≡ spec.counted_of (entries_of (pair_views entries.now)) }
{
    let key = optional_int_at(entries, b"key")?;
    let value = optional_int_at(entries, b"value")?;
    match (key, value) {
        (None, Some(value)) => Some(Counted::Value(value)),
        (Some(key), Some(value)) => Some(Counted::Entry { key, value }),
        (Some(key), None) => Some(Counted::NoEntry(key)),
        (None, None) if value_at(entries, b"held").is_some() => Some(Counted::Held),
        (None, None) if value_at(entries, b"free").is_some() => Some(Counted::Free),
        (None, None) => None,
    }
}

/// Reads the number of the event from which on it is counted. No form is 0, the beginning.
fn read_start(form: Option<&Form>) -> Option<u32>
    ensures { result ≡ spec.start_number (option_map (λ f. view f.now) form.entry) }
{
    match form {
        None => Some(0),
        Some(_) => number(form),
    }
}

/// Reads a count of a content: the content, and `:from`.
fn read_count(entries: &[(Name, Form)]) -> Option<Basis>
    ensures { result ≡ spec.count_with (spec.counted_of (entries_of (pair_views entries.now)))
        (spec.start_number (value_at (codes "from") (entries_of (pair_views entries.now)))) }
{
    let counted = read_counted(entries)?;
    let from = read_start(value_at(entries, b"from"))?;
    Some(Basis::Counting(Count { counted, from }))
}

/// Reads a count of what was ahead of a removal: the number of the event that invoked the removal,
/// and the number of the event from which on it is counted.
fn read_ahead(removal: Option<&Form>, from: Option<&Form>) -> Option<Basis>
    ensures { result ≡ spec.ahead_with
        (spec.number_in (option_map (λ f. view f.now) removal.entry))
        (spec.start_number (option_map (λ f. view f.now) from.entry)) }
{
    let number = number(removal)?;
    let from = read_start(from)?;
    Some(Basis::Ahead { number, from })
}

/// Reads either count. With the key `:ahead` no other key matters, except `:from`.
fn read_any_count(entries: &[(Name, Form)]) -> Option<Basis>
    ensures { result ≡ spec.basis_of (entries_of (pair_views entries.now)) }
{
    let removal = value_at(entries, b"ahead");
    match removal {
        None => read_count(entries),
        Some(_) => read_ahead(removal, value_at(entries, b"from")),
    }
}

/// Reads which operation a search tries first: `:number`, the default, or `:return`.
fn read_first(form: Option<&Form>) -> Option<TryFirst>
    ensures { result ≡ spec.first_in (option_map (λ f. view f.now) form.entry) }
{
    match form {
        None => Some(TryFirst::LeastNumber),
        Some(Form::Keyword(word)) if same_bytes(word.as_bytes(), b"number") => {
            Some(TryFirst::LeastNumber)
        }
        Some(Form::Keyword(word)) if same_bytes(word.as_bytes(), b"return") => {
            Some(TryFirst::LeastReturn)
        }
        Some(_) => None,
    }
}

/// Reads how many steps a search may take. No form is `Some(None)`, no own limit; a form that is
/// not a number is `None`.
fn read_steps(form: Option<&Form>) -> Option<Option<u32>>
    ensures { result ≡ spec.steps_in (option_map (λ f. view f.now) form.entry) }
{
    match form {
        None => Some(None),
        Some(_) => number(form).map(Some),
    }
}

/// Reads a search from the entries of a map: `:first` and `:steps`.
fn read_search_in(entries: &[(Name, Form)]) -> Option<Basis>
    ensures { result ≡ spec.search_with
        (spec.first_in (value_at (codes "first") (entries_of (pair_views entries.now))))
        (spec.steps_in (value_at (codes "steps") (entries_of (pair_views entries.now)))) }
{
    let first = read_first(value_at(entries, b"first"))?;
    let steps = read_steps(value_at(entries, b"steps"))?;
    Some(Basis::Search(Trial { first, steps }))
}

/// Reads how a part is searched. No form is a search by least number, with no limit of its own.
#[tactic(auto, using(edn_reader::proofs::Pairs::map_view))]
fn read_search(form: Option<&Form>) -> Option<Basis>
    ensures { result ≡ spec.search_in (option_map (λ f. view f.now) form.entry) }
{
    match form {
        None => Some(Basis::Search(Trial {
            first: TryFirst::LeastNumber,
            steps: None,
        })),
        Some(Form::Map(entries)) => read_search_in(entries),
        Some(_) => None,
    }
}

/// Reads the basis of a reason: a count, or a search if there is no count. `count` and `searched`
/// are the values of `:count` and `:search` in the reason's map.
#[tactic(auto, using(edn_reader::proofs::Pairs::map_view))]
pub(crate) fn read_basis(count: Option<&Form>, searched: Option<&Form>) -> Option<Basis>
    ensures { result ≡ spec.basis_in (option_map (λ f. view f.now) count.entry)
        (option_map (λ f. view f.now) searched.entry) }
{
    match count {
        None => read_search(searched),
        Some(Form::Map(entries)) => read_any_count(entries),
        Some(_) => None,
    }
}
