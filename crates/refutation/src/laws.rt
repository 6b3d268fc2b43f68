//! What a reason shows, as laws: functions that do nothing, and whose contracts are theorems. A
//! reason names one part at most. A part without a valid order is not linearizable: in no history
//! in which its object has these calls and no others, and not alone. Nor are the operations at its
//! numbers alone, as the history says them. The proofs take the orders from locality and its
//! converse; the history of calls alone has a process for each call (`proofs/Alone.antt`).

ghost use Rattle.std.specs.Prelude.{◌≡◌, ◌<◌, ◌↔◌, ℕ, List, All, AllPairs};
ghost use Rattle.model.specs.declared.Kind.{Kind};
ghost use Rattle.model.specs.Linearizable.{IsLinearizable};
ghost use Rattle.model.specs.Objects.{kind_of};
ghost use Rattle.model.specs.Orders.{Call, IsHistory, Numbered, calls_on, events, HasNoValidOrder};
ghost use Rattle.events.specs.Operations.{ObjectCalls, calls_of};
ghost use Rattle.cuts.specs.declared.cutting.Cut.{Cut};
ghost use Rattle.cuts.specs.Cuts.{NamesPart};
ghost use Rattle.cuts.specs.Listed.{listed};
ghost use Rattle.refutation.specs.Alone.{alone};
ghost use Rattle.refutation.specs.Refutations.{PartHasNoValidOrder, IsNamedPart};

use cuts::{listed_is_valid, one_part};
use locality::{linearizable_has_orders, named_objects};

/// A reason names one part at most: with its object, its kind and its operations. So what is listed
/// of a reason is what any check of it would list.
pub fn one_named_part()
    ensures { (cuts : List Cut) (x : ℕ) (whole : Kind) (calls : List Call) (p q : ObjectCalls)
        → AllPairs (λ a b. a.number < b.number) calls
        → IsNamedPart cuts x whole calls p
        → IsNamedPart cuts x whole calls q
        → p ≡ q }
{
    one_part();
}

/// A part without a valid order, in words of linearizability: no history is linearizable in which
/// its object, of the part's kind, has exactly the part's calls, whatever else it has.
pub fn part_is_not_linearizable()
    ensures { (part : ObjectCalls) (kinds : ℕ → Kind) (h : List Numbered)
        → PartHasNoValidOrder part
        → IsHistory h
        → kinds part.object ≡ part.kind
        → calls_on part.object h ≡ calls_of part.ops
        → IsLinearizable kinds (events h)
        → ⊥ }
{
    linearizable_has_orders();
}

/// The part's calls alone, as the part has them, are a history that has these calls and no others.
/// It is not linearizable exactly if the part has no valid order.
pub fn part_alone_is_not_linearizable()
    // The calls of a part of a history are a history, on its object, and have no other calls.
    ensures history { (cuts : List Cut) (x : ℕ) (h : List Numbered) (part : List Call)
        → IsHistory h
        → NamesPart cuts (calls_on x h) part
        → IsHistory (alone x part) × (calls_on x (alone x part) ≡ part) }
    ensures not_linearizable { (cuts : List Cut) (x : ℕ) (whole : Kind) (h : List Numbered)
        (part : ObjectCalls)
        → IsHistory h
        → IsNamedPart cuts x whole (calls_on x h) part
        → (PartHasNoValidOrder part
        ↔ (IsLinearizable (λ y. part.kind) (events (alone x (calls_of part.ops))) → ⊥)) }
{
    // The first says that a linearizable history has orders, the second that one with orders is
    // linearizable.
    linearizable_has_orders();
    named_objects();
}

/// The operations at the numbers of a part, as the history says them and not as the part has them:
/// if the part has no valid order they have none, and alone they are not linearizable.
pub fn listed_is_not_linearizable()
    ensures no_order { (cuts : List Cut) (x : ℕ) (kind : Kind) (h : List Numbered)
        (part : ObjectCalls)
        → IsHistory h
        → All (λ e. kind_of e.op ≡ kind) (calls_on x h)
        → IsNamedPart cuts x kind (calls_on x h) part
        → PartHasNoValidOrder part
        → HasNoValidOrder kind (listed (calls_of part.ops) (calls_on x h)) }
    ensures not_linearizable { (cuts : List Cut) (x : ℕ) (kind : Kind) (h : List Numbered)
        (part : ObjectCalls)
        → IsHistory h
        → All (λ e. kind_of e.op ≡ kind) (calls_on x h)
        → IsNamedPart cuts x kind (calls_on x h) part
        → PartHasNoValidOrder part
        → IsLinearizable (λ y. kind) (events (alone x (listed (calls_of part.ops) (calls_on x h))))
        → ⊥ }
{
    listed_is_valid();
    linearizable_has_orders();
}
