//! From bytes to forms.

ghost use Rattle.std.specs.Prelude.{◌≡◌, ◌≢◌, ◌<◌, List, length, IfOk, IfErr, IsErrAnd};
ghost use Rattle.edn_reader.specs.Datum.{Datum, max_length};
ghost use Rattle.edn_reader.specs.Sound.{IsSoundAt};
ghost use Rattle.edn_reader.specs.Spells.{Spells};
ghost use Rattle.edn_reader.specs.View.{views};

use crate::elements::Elements;
use crate::fault::{EdnFault, FaultKind};
use crate::form::Form;
use std::alloc::Global;

/// The most bytes that a text may have.
pub const MAX_LENGTH: usize = 268_435_456;

/// Reads the forms that a text spells. A text that is too long is not looked at; then comes whether
/// it is UTF-8 as a whole; then it is read from left to right, and its first fault is the answer.
/// The form of an element is made once the element is whole.
pub fn read_forms(alloc: Global, text: &[u8]) -> Result<Vec<Form>, EdnFault>
    ensures spelled { IfOk result (λ v. Spells (views v.items) text.now) }
    // The text spells no others.
    ensures only { IfOk result (λ v. (ds : List Datum) → Spells ds text.now → ds ≡ views v.items) }

    ensures too_long { IfErr result (λ e. e.kind ≡ FaultKind.TooLong →
        max_length < length text.now) }
    ensures long { max_length < length text.now →
        IsErrAnd result (λ e. e.kind ≡ FaultKind.TooLong) }
    // Any other fault comes only if the text spells no forms.
    ensures none { IfErr result (λ e. e.kind ≢ FaultKind.NoMemory → e.kind ≢ FaultKind.TooLong
        → (ds : List Datum) → Spells ds text.now → ⊥) }
    // An allocation failed, and nothing was wrong yet: the token at that place still is one of
    // some forms.
    ensures memory { IfErr result (λ e. e.kind ≡ FaultKind.NoMemory → IsSoundAt e.place text.now) }
{
    let mut elements = Elements::new(alloc, text)?;
    let mut forms = Vec::new(alloc);
    'elements: loop {
        let place = elements.place();
        let Some(form) = elements.next_form()? else {
            return Ok(forms);
        };
        match forms.push(form) {
            Ok(()) => {}
            Err(_) => {
                return Err(EdnFault {
                    kind: FaultKind::NoMemory,
                    place,
                });
            }
        }
    }
}
