//! Why the check of certificates suffices, as a law: a function that does nothing, and whose
//! contract is a theorem.

ghost use Rattle.std.specs.Prelude.{ℕ, List};
ghost use Rattle.events.specs.declared.event.Event.{Event};
ghost use Rattle.certificate.specs.declared.Certificate.{Certificate};
ghost use Rattle.checker.specs.Refusals.{AreValid};
ghost use Rattle.reading.specs.Texts.{DenotesHistory, IsLinearizableText};

use locality::named_objects;

/// A history that a text denotes is linearizable if certificates are valid for it.
pub fn valid_certificates_suffice()
    ensures { (text : List ℕ) (es : List Event) (cs : List Certificate) → DenotesHistory text es →
        AreValid es cs →
        IsLinearizableText text }
{
    // This does nothing: it is locality.
    named_objects();
}
