//! A search for certificates of a history.

ghost use Rattle.std.specs.Prelude.{ℕ, List, IfOk};
ghost use Rattle.reading.specs.Texts.{IsHistoryRead};
ghost use Rattle.history_commands.specs.Searches.{AreSearched, IsSearchResult};

use crate::answers::{Answer, output_of};
use crate::comments::certificates_text;
use crate::lines::{push_object_line, push_steps};
use crate::output::{Output, verdict_output};
use history::History;
use order_search::TryFirst;
use reading::{TextFailure, history_of_text};
use report::Verdict;
use search::{CertificateOutcome, Search, search_all_by};
use std::alloc::{AllocError, Global};
use text_check::valid_certificates_suffice;

impl Answer for Search {
    ghost use Rattle.history_commands.specs.Searches.{answer_line, finds_impossible, is_found};

    ghost impossible = { λ s. finds_impossible s.found };

    ghost found = { λ s. is_found s.found };

    ghost lines = { λ _ x s. answer_line x s };

    fn is_impossible(&self) -> bool {
        matches!(self.found, CertificateOutcome::Impossible)
    }

    fn is_found(&self) -> bool {
        matches!(self.found, CertificateOutcome::Found(_))
    }

    fn push_lines(
        &self,
        alloc: Global,
        text: &mut Vec<u8>,
        _history: &History,
        object: u32,
    ) -> Result<(), AllocError> {
        match &self.found {
            CertificateOutcome::Found(certificate) => {
                let line = certificates_text(alloc, std::slice::from_ref(certificate))?;
                text.extend_from_slice(&line)
            }
            CertificateOutcome::Impossible => push_object_line(text, object, b": impossible\n"),
            CertificateOutcome::OutOfSteps => push_steps(text, object, self.steps),
            CertificateOutcome::TooLarge => push_object_line(text, object, b": too large\n"),
            CertificateOutcome::NoMemory => push_object_line(text, object, b": out of memory\n"),
        }
    }
}

/// Searches on each object, and says what was found.
fn search_objects(
    alloc: Global,
    history: &History,
    steps: u32,
    first: TryFirst,
) -> Result<Output, AllocError>
    ensures { IfOk result (λ o. AreSearched history.now steps o.status o.text.items) }
{
    let answers = search_all_by(alloc, history, first, u64::from(steps))?;
    output_of(alloc, history, &answers)
}

/// Searches for certificates of a history that was read from a text, with a limit of `steps` steps
/// for each object; or says what stopped its reading.
pub fn search_history(
    alloc: Global,
    history: Result<History, TextFailure>,
    steps: u32,
    first: TryFirst,
) -> Result<Output, AllocError>
    ensures { (h : List ℕ) → IsHistoryRead h history → IfOk result (λ o.
        IsSearchResult h steps o.status o.text.items) }
{
    // This does nothing: it is locality.
    valid_certificates_suffice();
    match history {
        Ok(history) => search_objects(alloc, &history, steps, first),
        Err(stop) => verdict_output(alloc, &Verdict::from(stop)),
    }
}

/// Searches for certificates of the history in a text, as `search_history` does.
pub fn search(alloc: Global, text: &[u8], steps: u32, first: TryFirst) -> Result<Output, AllocError>
    ensures { IfOk result (λ o. IsSearchResult text.now steps o.status o.text.items) }
{
    let history_read = history_of_text(alloc, text);
    search_history(alloc, history_read, steps, first)
}
