//! The theorems of records.

ghost use Rattle.std.specs.Prelude.{◌≡◌, ◌<◌, ℕ, List, length, ◌+◌};
ghost use Rattle.model.specs.declared.Kind.{Kind};
ghost use Rattle.desk_model.specs.World.{AnyEntry, AnyEvent};
ghost use Rattle.desk_model.specs.Records.{IsSoundRecord};
ghost use Rattle.events.specs.declared.event.Event.{Event};
ghost use Rattle.recorder.specs.Histories.{AreEventsOf, IsRecord};
ghost use Rattle.desk_model.specs.Limits.{max_calls};

/// Journals have one history at most.
pub fn one_history()
    ensures { (journals : ℕ → List AnyEvent) (es fs : List Event) → AreEventsOf journals es →
        AreEventsOf journals fs → es ≡ fs }
{}

/// The journals and logs of a sound record are a record, if no client makes more than 10,000
/// calls.
pub fn sound_record_is_a_record()
    ensures { (kinds : List Kind) (quota : ℕ) (journals : ℕ → List AnyEvent)
        (logs : ℕ → List AnyEntry)
        →
        IsSoundRecord kinds quota journals logs → quota < 1 + max_calls
        → IsRecord (length kinds) journals logs }
{}
