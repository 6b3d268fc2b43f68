//! A history in shards: each object is in one of them, and the full history is linearizable exactly
//! if each shard is. The theorems are about events in memory, and (`texts.rt`) about texts, even
//! one that is longer than `judge` reads. They are the contracts of functions that do nothing. They
//! follow from locality: Herlihy and Wing, "Linearizability: A Correctness Condition for Concurrent
//! Objects", TOPLAS 1990, section 3. `split_over` divides a history of any length into such shards.
#![tactic(auto)]

mod counts;
mod divider;
mod division;
mod fault;
mod folder;
mod names;
mod numbering;
mod pieces;
mod renaming;
mod split;
mod tally;
mod texts;
mod waiting;

ghost use Rattle.std.specs.Prelude.{◌≡◌, ◌↔◌, ℕ, List};
ghost use Rattle.events.specs.declared.event.Event.{Event};
ghost use Rattle.events.specs.Events.{IsNamed, IsProper};
ghost use Rattle.shards.specs.Shards.{AreApart, AreShards, DenoteLinearizable, renamed};
ghost use Rattle.shards.specs.WorkedShards.{one_each, own_shard, shards_of_one_each};
ghost use Rattle.shards.specs.WorkedShards.{shards_of_two_at_once, two_at_once};

pub use counts::{counts_in, counts_text};
pub use division::{Division, LargeObject};
pub use fault::SplitFault;
pub use folder::Folder;
pub use names::{object_named, objects_have_own_names, shards_needed};
pub use numbering::{TableFault, with_table};
pub use split::{split_by_pieces, split_over};
pub use texts::{
    judged_shards_decide, shards_denote, shards_have_no_fault, shards_keep_their_numbers,
    texts_of_shards_decide,
};

/// If no two objects that events name get the same name, the history is linearizable exactly
/// if that of the renamed events is.
pub fn objects_may_be_renamed()
    ensures { (name : ℕ → ℕ) (es : List Event)
        → IsProper es
        → ((x y : ℕ) → IsNamed es x → IsNamed es y → name x ≡ name y → x ≡ y)
        → (DenoteLinearizable es ↔ DenoteLinearizable (renamed name es)) }
{}

/// The shards of a proper list of events are proper, if the objects of each have names of their
/// own.
pub fn shards_are_proper()
    ensures { (shard_of name : ℕ → ℕ) (es : List Event) (shards : ℕ → List Event)
        → IsProper es
        → AreApart shard_of name es
        → AreShards shard_of name es shards
        → (s : ℕ) → IsProper (shards s) }
{}

/// Each object that the full history names is named in its shard, by its name there, and a shard
/// names no others.
pub fn shards_name_objects()
    ensures { (shard_of name : ℕ → ℕ) (es : List Event) (shards : ℕ → List Event)
        → AreShards shard_of name es shards
        → (s y : ℕ) → (IsNamed (shards s) y
        ↔ ((x : ℕ) × IsNamed es x × (shard_of x ≡ s) × (name x ≡ y))) }
{}

/// The history that proper events denote is linearizable exactly if that of each shard is, provided
/// that the objects of each shard have names of their own.
pub fn shards_decide()
    ensures { (shard_of name : ℕ → ℕ) (es : List Event) (shards : ℕ → List Event)
        → IsProper es → AreApart shard_of name es → AreShards shard_of name es shards
        → (DenoteLinearizable es ↔ ((s : ℕ) → DenoteLinearizable (shards s))) }
{}

/// A shard may have numbers of its own, as that with object 2 has here. The shards of this
/// history are linearizable, and so is the full history.
pub fn shards_may_be_renumbered()
    ensures whole_proper { IsProper one_each }
    ensures divided { AreShards own_shard (λ x. x) one_each shards_of_one_each }
    ensures shards_linearizable { (s : ℕ) → DenoteLinearizable (shards_of_one_each s) }
    ensures whole_linearizable { DenoteLinearizable one_each }
{}

/// Each shard may be proper, and linearizable, although the full history is neither: a process that
/// waits for a response in one shard may invoke an operation in another. So a tool that divides a
/// history has to check on the full history what each process does.
pub fn proper_shards_do_not_make_a_proper_whole()
    ensures divided { AreShards own_shard (λ x. x) two_at_once shards_of_two_at_once }
    ensures shards_proper { (s : ℕ) → IsProper (shards_of_two_at_once s) }
    ensures shards_linearizable { (s : ℕ) → DenoteLinearizable (shards_of_two_at_once s) }
    ensures whole_not_proper { ¬ IsProper two_at_once }
    ensures whole_not_linearizable { ¬ DenoteLinearizable two_at_once }
{}
