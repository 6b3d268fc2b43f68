//! What several of the tests read: histories and certificates in texts that have no fault.

ghost use Rattle.std.specs.Prelude.{All, IfOk, IsTrue};
ghost use Rattle.certificate.specs.Denotes.{AreDistinct};
ghost use Rattle.edn_reader.specs.Datum.{DatumFits, max_open};
ghost use Rattle.edn_reader.specs.View.{view};

use certificate::{Certificate, read_certificates_text};
use edn::{Form, fits};
use events::History;
use history::read_history_text;
use std::alloc::Global;
use std::test::Fail;

/// Whether each form fits, which is what the readers of forms ask.
pub fn all_fit(forms: &[Form]) -> bool
    ensures { IsTrue result → All (λ f. DatumFits max_open (view f)) forms.now }
{
    forms.iter().all(|f| fits(f))
}

pub fn history_of(alloc: Global, text: &str) -> Result<History, Fail> {
    read_history_text(alloc, text.as_bytes()).map_err(|_| Fail::new("a history is refused"))
}

pub fn certificates_of(alloc: Global, text: &str) -> Result<Vec<Certificate>, Fail>
    ensures { IfOk result (λ v. AreDistinct v.items) }
{
    let Ok(certificates) = read_certificates_text(alloc, text.as_bytes()) else {
        return Err(Fail::new("certificates are refused"));
    };
    Ok(certificates)
}
