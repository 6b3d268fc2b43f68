//! The theorems of the world.

ghost use Rattle.std.specs.Prelude.{◌≡◌, ℕ, List};
ghost use Rattle.model.specs.declared.Kind.{Kind};
ghost use Rattle.model.specs.Orders.{events};
ghost use Rattle.model.specs.Linearizable.{IsLinearizable};
ghost use Rattle.desk_model.specs.World.{AnyEntry, AnyEvent, absent, idle, World, initial_world};
ghost use Rattle.desk_model.specs.World.{kind_at, journal_in};
ghost use Rattle.desk_model.specs.Transitions.{Step, Transition, staged};
ghost use Rattle.desk_model.specs.Sound.{Sound};
ghost use Rattle.desk_model.specs.Records.{IsSoundRecord};

/// The invariant holds of the initial world.
pub fn initial_world_is_sound()
    ensures { (kinds : List Kind) (quota : ℕ) → Sound kinds quota initial_world }
{}

/// It still holds when a client has come.
pub fn coming_keeps_soundness()
    ensures { (kinds : List Kind) (quota : ℕ) (w : World) (client : ℕ) → w.stage client ≡ absent →
        Sound kinds quota w → Sound kinds quota (staged w client idle) }
{}

/// Each transition of each client keeps it, for all objects and quotas.
pub fn transitions_keep_soundness()
    ensures { (kinds : List Kind) (quota : ℕ) (step : Step) (w w' : World) (client : ℕ) →
        Transition kinds quota step w client w' → Sound kinds quota w → Sound kinds quota w' }
{}

/// The record of a sound world is sound: its history is well-formed, and each log is a valid order.
/// Calls may be under way.
pub fn record_is_sound()
    ensures { (kinds : List Kind) (quota : ℕ) (w : World) → Sound kinds quota w →
        IsSoundRecord kinds quota (journal_in w) w.log }
{}

/// The history of a sound record is linearizable.
pub fn sound_record_is_linearizable()
    ensures { (kinds : List Kind) (quota : ℕ) (journals : ℕ → List AnyEvent) (logs : ℕ →
        List AnyEntry) (r : IsSoundRecord kinds quota journals logs) →
        IsLinearizable (kind_at kinds) (events r.history) }
{}
