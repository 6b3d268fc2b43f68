//! Sets of integers and of numbers of maps, from vectors.

ghost use Rattle.std.specs.Prelude.{◌≡◌, [], Option, Some, None, IfOk, option_map};
ghost use Rattle.edn_reader.specs.Datum.{items_of};
ghost use Rattle.edn_reader.specs.View.{view, views};
ghost use Rattle.refutation.specs.Denotes as spec;

use cuts::Values;
use edn::Form;
use std::alloc::{AllocError, Global};
use std::collections::BTreeSet;

/// The number of a map of a history, if the form is one.
pub(crate) fn number(form: Option<&Form>) -> Option<u32>
    ensures { result ≡ spec.number_in (option_map (λ f. view f.now) form.entry) }
{
    match edn::natural(form) {
        Some(n) if n <= 4_294_967_295 => Some(n as u32),
        _ => None,
    }
}

/// The set of the integers, if all forms are integers.
fn integers(alloc: Global, forms: &[Form]) -> Result<Option<BTreeSet<i64>>, AllocError>
    ensures { IfOk result (λ o. option_map (λ s. s.keys) o
        ≡ spec.integers_with [] (items_of (views forms.now))) }
{
    let mut set = BTreeSet::new(alloc);
    for form in forms {
        let Some(n) = edn::integer(form) else {
            return Ok(None);
        };
        set.insert(n)?;
    }
    Ok(Some(set))
}

/// The set of the numbers of maps, if all forms are such numbers.
fn numbers_of(alloc: Global, forms: &[Form]) -> Result<Option<BTreeSet<u32>>, AllocError>
    ensures { IfOk result (λ o. option_map (λ s. s.keys) o
        ≡ spec.numbers_with [] (items_of (views forms.now))) }
{
    let mut set = BTreeSet::new(alloc);
    for form in forms {
        let Some(n) = number(Some(form)) else {
            return Ok(None);
        };
        set.insert(n)?;
    }
    Ok(Some(set))
}

/// The values that are kept, if the form says which.
#[tactic(auto, using(edn_reader::proofs::Pairs::vector_view))]
pub(crate) fn values(alloc: Global, form: Option<&Form>) -> Result<Option<Values>, AllocError>
    ensures { IfOk result (λ o. option_map spec.seen_values o
        ≡ spec.values_in (option_map (λ f. view f.now) form.entry)) }
{
    match form {
        Some(Form::Vector(forms)) => match integers(alloc, forms)? {
            Some(set) => Ok(Some(Values::Only(set))),
            None => Ok(None),
        },
        Some(Form::Keyword(word)) if edn::same_bytes(word.as_bytes(), b"all") => {
            Ok(Some(Values::All))
        }
        _ => Ok(None),
    }
}

/// The numbers that are kept; none if the map does not name them.
#[tactic(auto, using(edn_reader::proofs::Pairs::vector_view))]
pub(crate) fn numbers(
    alloc: Global,
    form: Option<&Form>,
) -> Result<Option<BTreeSet<u32>>, AllocError>
    ensures { IfOk result (λ o. option_map (λ s. s.keys) o
        ≡ spec.numbers_in (option_map (λ f. view f.now) form.entry)) }
{
    match form {
        None => Ok(Some(BTreeSet::new(alloc))),
        Some(Form::Vector(forms)) => numbers_of(alloc, forms),
        Some(_) => Ok(None),
    }
}
