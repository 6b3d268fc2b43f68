//! What texts denote, as laws: functions that do nothing, and whose contracts are theorems.

ghost use Rattle.std.specs.Prelude.{◌≡◌, ℕ, List, map};
ghost use Rattle.events.specs.declared.event.Event.{Event};
ghost use Rattle.certificate.specs.declared.Certificate.{Certificate};
ghost use Rattle.certificate.specs.Denotes.{reading_of};
ghost use Rattle.reading.specs.Texts.{DenotesHistory, DenotesCertificates};

use edn::one_reading;

/// A text denotes one history at most.
pub fn one_history()
    ensures { (text : List ℕ) (es fs : List Event) → DenotesHistory text es →
        DenotesHistory text fs →
        es ≡ fs }
{
    one_reading();
}

/// The certificates that a text denotes say one thing: these orders for these objects, one by one.
pub fn one_list_of_orders()
    ensures { (text : List ℕ) (cs ds : List Certificate) → DenotesCertificates text cs →
        DenotesCertificates text ds → map reading_of cs ≡ map reading_of ds }
{
    one_reading();
}
