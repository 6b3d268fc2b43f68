//! The values that a map has for its keys, by their shapes.

ghost use Rattle.std.specs.Prelude.{◌≡◌, ◌<◌, ◌^◌, option_map};
ghost use Rattle.edn_reader.specs.Truncation.{integer_in};
ghost use Rattle.edn_reader.specs.Datum.{entries_of};
ghost use Rattle.edn_reader.specs.Names.{name_bytes};
ghost use Rattle.edn_reader.specs.View.{view, pair_views};
ghost use Rattle.edn.specs.Fields as spec;

mod operation;
mod values;

use crate::{Form, Name};
pub use operation::{OperationValues, values_of};
pub use values::{keyword_first, natural_first};

/// The greatest object number.
pub const MAX_OBJECT: u64 = 65_535;

/// Whether the bytes are the same.
pub fn same_bytes(left: &[u8], right: &[u8]) -> bool
    ensures { result ≡ spec.same_bytes left.now right.now }
{
    left == right
}

/// The value of a key, if the map has it.
pub fn value_at<'a>(entries: &'a [(Name, Form)], key: &[u8]) -> Option<&'a Form>
    ensures { option_map (λ f. view f.now) result
        ≡ spec.value_at key.now (entries_of (pair_views entries.now)) }
{
    for entry in entries {
        if same_bytes(key, entry.0.as_bytes()) {
            return Some(&entry.1);
        }
    }
    None
}

/// The integer that the form is, if it is one.
pub fn integer(form: &Form) -> Option<i64>
    ensures { result ≡ integer_in (view form.now) }
{
    match form {
        Form::Int(n) => Some(*n),
        _ => None,
    }
}

/// The natural number that the form is, if there is a form and it is one.
pub fn natural(value: Option<&Form>) -> Option<u64>
    ensures { result ≡ spec.natural_in (option_map (λ f. view f.now) value.entry) }
{
    match value {
        Some(Form::Int(n)) if *n >= 0 => Some(*n as u64),
        _ => None,
    }
}

/// The keyword that the form is, without its colon, if there is a form and it is one.
pub fn keyword<'a>(value: Option<&'a Form>) -> Option<&'a Name>
    ensures { option_map (λ k. name_bytes k.now) result
        ≡ spec.keyword_in (option_map (λ f. view f.now) value.entry) }
{
    match value {
        Some(Form::Keyword(name)) => Some(name),
        _ => None,
    }
}

/// The number as the number of an object, if it is at most 65,535.
pub fn object_number(number: Option<u64>) -> Option<u32>
    ensures { result ≡ spec.object_in number }
{
    match number {
        Some(n) if n <= MAX_OBJECT => Some(n as u32),
        _ => None,
    }
}
