//! What an object contained, kept to compare it with what the object contains later.

ghost use Rattle.std.specs.Prelude.{◌≡◌, ◌↔◌, IsTrue, IfOk, IfSome};
ghost use Rattle.order_search.specs.Undoing.{reversible_content, content_kept};

use crate::reversible::Reversible;
use std::alloc::{AllocError, Global};
use std::collections::VecDeque;

const BYTES_OF_A_SMALL_VALUE: usize = 4;

/// What an object contained. `Queue`, `Stack` and `Heap` have the values as integers of 32 bits, if
/// each fits. Any other content is a `Whole`.
#[derive(Drop)]
pub enum KeptContent {
    Queue(Vec<i32>),
    Stack(Vec<i32>),
    Heap(Vec<i32>),
    Whole(Reversible),
}

/// The values as integers of 32 bits, or `None` if one does not fit.
///
/// An error: an allocation failed.
fn narrowed(alloc: Global, values: &VecDeque<i64>) -> Result<Option<Vec<i32>>, AllocError>
    ensures { IfOk result (λ o. IfSome o (λ v. v.items ≡ values.now.items)) }
{
    let mut narrow = Vec::with_capacity(alloc, values.len())?;
    for k in 0..values.len() {
        let Ok(v) = i32::try_from(values[k]) else {
            return Ok(None);
        };
        narrow.push(v)?;
    }
    Ok(Some(narrow))
}

/// Whether both have the same values in the same order.
fn are_values(narrow: &[i32], values: &VecDeque<i64>) -> bool
    ensures { IsTrue result ↔ (narrow.now ≡ values.now.items) }
{
    if narrow.len() != values.len() {
        return false;
    }
    for k in 0..narrow.len() {
        if i64::from(narrow[k]) != values[k] {
            return false;
        }
    }
    true
}

impl KeptContent {
    /// Keeps what the object contains now.
    ///
    /// An error: an allocation failed.
    pub fn of(alloc: Global, object: &Reversible) -> Result<KeptContent, AllocError>
        ensures { IfOk result (λ kept. content_kept kept ≡ reversible_content object.now) }
    {
        let narrow = match object {
            Reversible::Queue(values) => narrowed(alloc, values)?.map(KeptContent::Queue),
            Reversible::Stack(values) => narrowed(alloc, values)?.map(KeptContent::Stack),
            Reversible::Heap(values) => narrowed(alloc, values)?.map(KeptContent::Heap),
            _ => None,
        };
        match narrow {
            Some(kept) => Ok(kept),
            None => Ok(KeptContent::Whole(object.try_copy()?)),
        }
    }

    /// Whether the object contains now what was kept.
    pub fn is_in(&self, object: &Reversible) -> bool
        ensures { IsTrue result ↔ (content_kept self.now ≡ reversible_content object.now) }
    {
        match (self, object) {
            (KeptContent::Queue(narrow), Reversible::Queue(values)) => are_values(narrow, values),
            (KeptContent::Stack(narrow), Reversible::Stack(values)) => are_values(narrow, values),
            (KeptContent::Heap(narrow), Reversible::Heap(values)) => are_values(narrow, values),
            (KeptContent::Whole(kept), _) => kept.same(object),
            _ => false,
        }
    }

    /// How many bytes of memory this takes at most. `keys` is the most keys that a map or set has;
    /// another kind does not use it.
    pub(crate) fn bytes(&self, keys: usize) -> usize {
        match self {
            KeptContent::Queue(values) | KeptContent::Stack(values) | KeptContent::Heap(values) => {
                values.len().saturating_mul(BYTES_OF_A_SMALL_VALUE)
            }
            KeptContent::Whole(object) => object.bytes(keys),
        }
    }
}
