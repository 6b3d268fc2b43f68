//! The shards of a history's text, of any length: texts that have the maps on some objects, as a
//! tool may divide a history that is longer than one text may be. What they denote, and that they
//! decide the full history.

ghost use Rattle.std.specs.Prelude.{◌≡◌, ◌≤◌, ◌^◌, ◌==◌, ◌⊎◌, ◌↔◌, ℕ, Bool, List, [], length};
ghost use Rattle.edn_reader.specs.Datum.{Datum};
ghost use Rattle.events.specs.declared.event.Event.{Event};
ghost use Rattle.history.specs.Faults.{IsFaultlessAtAnyLength};
ghost use Rattle.reading.specs.Texts.{IsLinearizableText, IsNotLinearizableText};
ghost use Rattle.shards.specs.Dividing.{Files, IsDivided, table_text, with_numbers};
ghost use Rattle.shards.specs.Forms.{forms_on};
ghost use Rattle.shards.specs.Shards.{events_on, renamed};
ghost use Rattle.shards.specs.ShardTexts.{IsSplit, IsShardOf, IsLinearizableAtAnyLength};
ghost use Rattle.shards.specs.ShardTexts.{TextDenotes};
ghost use Rattle.shards.specs.Tables.{AreShort};

/// The maps of clients on some objects have no fault if all maps of a history have none.
pub fn shards_have_no_fault()
    ensures { (has : ℕ → Bool) (ds : List Datum) → IsFaultlessAtAnyLength ds
        → IsFaultlessAtAnyLength (forms_on has ds) }
{}

/// Each shard denotes the events of the full history on its objects, by their names there, under
/// numbers of its own.
pub fn shards_denote()
    ensures { (shard_of name : ℕ → ℕ) (whole : List ℕ) (shards : ℕ → List ℕ) (es : List Event)
        → IsSplit shard_of name whole shards
        → TextDenotes whole es
        → (s : ℕ) → IsShardOf (λ x. shard_of x == s) name es (shards s) }
{}

/// Each shard has the numbers of the full history in its table, if these have 32 bits: with them
/// its events are those of the full history on its objects, by their names in the shard.
pub fn shards_keep_their_numbers()
    ensures { (shard_of name : ℕ → ℕ) (whole : List ℕ) (files : Files) (es own : List Event)
        → (d : IsDivided shard_of name whole files) → length d.split.maps ≤ 2 ^ 32
        → TextDenotes whole es → (s : ℕ) → TextDenotes (files.texts s) own
        → (ns : List ℕ) → AreShort ns → table_text ns ≡ files.tables s
        → with_numbers ns own ≡ renamed name (events_on (λ x. shard_of x == s) es) }
{}

/// The full history is linearizable exactly if the history of each shard is.
pub fn texts_of_shards_decide()
    ensures { (shard_of name : ℕ → ℕ) (whole : List ℕ) (shards : ℕ → List ℕ)
        → IsSplit shard_of name whole shards
        → (IsLinearizableAtAnyLength whole ↔ ((s : ℕ) → IsLinearizableAtAnyLength (shards s))) }
{}

/// What the commands say of shards decides the full history. It is linearizable if a yes says so of
/// each shard that is not empty, and not linearizable if a no of `verify` or of `refute` says so
/// of one.
pub fn judged_shards_decide()
    ensures yes { (shard_of name : ℕ → ℕ) (whole : List ℕ) (shards : ℕ → List ℕ)
        → IsSplit shard_of name whole shards
        → ((s : ℕ) → (shards s ≡ []) ⊎ IsLinearizableText (shards s))
        → IsLinearizableAtAnyLength whole }
    ensures no { (shard_of name : ℕ → ℕ) (whole : List ℕ) (shards : ℕ → List ℕ)
        → IsSplit shard_of name whole shards
        → (s : ℕ) → IsNotLinearizableText (shards s)
        → ¬ IsLinearizableAtAnyLength whole }
{}
