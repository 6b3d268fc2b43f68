//! The search for certificates of all objects of a history.

ghost use Rattle.std.specs.Prelude.{◌≡◌, ◌<◌, ◌↔◌, ℕ, IfOk, All, AllPairs, Any, Contains, map};
ghost use Rattle.model.specs.Linearizable.{IsLinearizable};
ghost use Rattle.model.specs.Orders.{events};
ghost use Rattle.events.specs.Events.{IsNamed, kind_of_object, denoted};
ghost use Rattle.certificate.specs.Denotes.{AreDistinct};
ghost use Rattle.checker.specs.Refusals.{AreValid};
ghost use Rattle.search.specs.Answers.{IsSearchAnswerOn, IsFound, certificates_found};

use crate::certificate_search::{CertificateOutcome, Search};
use crate::object::search_by;
use events::{History, split};
use locality::linearizable_has_orders;
use order_search::TryFirst;
use std::alloc::{AllocError, Global};

/// Searches for a certificate of each object of a history, each within the limit, and answers in
/// rising number of the objects. Of the operations that can come next, that with the least number
/// is tried first.
///
/// It fails only on an allocation failure, of the split or of the list of answers.
pub fn search_all(
    alloc: Global,
    history: &History,
    limit: u64,
) -> Result<Vec<(u32, Search)>, AllocError>
    ensures rising { IfOk result (λ v. AllPairs (λ a b. a.0 < b.0) v.items) }
    // the objects that some invocation names, and no others
    ensures named { IfOk result (λ v. (x : ℕ)
        → Contains (map (λ a. a.0) v.items) x ↔ IsNamed history.now x) }
    ensures answers { IfOk result (λ v. All (λ a. IsSearchAnswerOn history.now limit a.0 a.1)
        v.items) }
    // If one is impossible the history is not linearizable.
    ensures impossible { IfOk result (λ v. Any
        (λ a. a.1.found ≡ CertificateOutcome.Impossible) v.items
        → IsLinearizable (kind_of_object history.now) (events (denoted history.now)) → ⊥) }
    // If all are found `check_all` accepts the certificates.
    ensures distinct { IfOk result (λ v. AreDistinct (certificates_found v.items)) }
    ensures valid { IfOk result (λ v. All (λ a. IsFound a.1) v.items
        → AreValid history.now (certificates_found v.items)) }
{
    search_all_by(alloc, history, TryFirst::LeastNumber, limit)
}

/// Searches as `search_all` does; `first` chooses which operation is tried first.
pub fn search_all_by(
    alloc: Global,
    history: &History,
    first: TryFirst,
    limit: u64,
) -> Result<Vec<(u32, Search)>, AllocError>
    ensures rising { IfOk result (λ v. AllPairs (λ a b. a.0 < b.0) v.items) }
    // the objects that some invocation names, and no others
    ensures named { IfOk result (λ v. (x : ℕ)
        → Contains (map (λ a. a.0) v.items) x ↔ IsNamed history.now x) }
    ensures answers { IfOk result (λ v. All (λ a. IsSearchAnswerOn history.now limit a.0 a.1)
        v.items) }
    ensures impossible { IfOk result (λ v. Any
        (λ a. a.1.found ≡ CertificateOutcome.Impossible) v.items
        → IsLinearizable (kind_of_object history.now) (events (denoted history.now)) → ⊥) }
    ensures distinct { IfOk result (λ v. AreDistinct (certificates_found v.items)) }
    ensures valid { IfOk result (λ v. All (λ a. IsFound a.1) v.items
        → AreValid history.now (certificates_found v.items)) }
{
    // Two calls for their contracts alone: the events denote a well-formed history, and each object
    // of a linearizable one has a valid order.
    history.events();
    linearizable_has_orders();
    let objects = split(alloc, history)?;
    let mut answers = Vec::new(alloc);
    for object in &objects {
        let answer = search_by(alloc, object, first, limit);
        answers.push((object.object(), answer))?;
    }
    Ok(answers)
}
