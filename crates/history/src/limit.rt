//! What the limits of a history in one text mean, as a function that does nothing.

ghost use Rattle.std.specs.Prelude.{◌≤◌, ◌↔◌, All, List, length};
ghost use Rattle.edn_reader.specs.Datum.{Datum};
ghost use Rattle.events.specs.declared.event.Event.{Event};
ghost use Rattle.history.specs.Faults.{HasGreatObject, max_maps};
ghost use Rattle.history.specs.Denotes.{Denotes, DenotesAtAnyLength};

/// Forms denote a history exactly if they denote one at any length, are not too many, and name no
/// object that is too great for one text.
pub fn limits_of_one_text()
    ensures { (ds : List Datum) (es : List Event) →
        Denotes ds es ↔ (DenotesAtAnyLength ds es × (length ds ≤ max_maps)
        × All (λ d. HasGreatObject d → ⊥) ds) }
{}
