//! Locality of linearizability, its converse, and what the definitions say of worked histories:
//! functions that do nothing, and whose contracts are theorems. Locality is the theorem of Herlihy
//! and Wing, "Linearizability: A Correctness Condition for Concurrent Objects", TOPLAS 1990,
//! section 3.
#![tactic(auto)]

mod worked_histories;

ghost use Rattle.std.specs.Prelude.{◌≡◌, ◌↔◌, ◌++◌, ℕ, ℤ, false, List, All};
ghost use Rattle.model.specs.declared.Kind.{Kind};
ghost use Rattle.model.specs.Objects.{specification};
ghost use Rattle.model.specs.Specification.{Specification};
ghost use Rattle.model.specs.Histories.{Event, is_invocation, IsWellFormed};
ghost use Rattle.model.specs.Linearizable.{IsLinearizable, IsLinearizableFor};
ghost use Rattle.model.specs.Orders.{Numbered, events, Call, IsHistory, calls_in};
ghost use Rattle.model.specs.Orders.{IsValidOrder, IsValidOrderOf};
ghost use Rattle.locality.specs.AsWritten.{IsLinearizableAsWritten};
ghost use Rattle.locality.specs.Completions.{AnswersPending};
ghost use Rattle.locality.specs.Locality.{HasValidOrder, HasValidOrderOf};

pub use worked_histories::{
    each_object_has_its_order, mutex_is_held_by_one, operations_in_turn_keep_their_order,
    overlapping_operations_may_change_places, pending_operation_does_not_overtake,
    pending_operation_may_be_left_out, pending_operation_may_take_effect, process_is_sequential,
    use_in_turn_is_linearizable,
};

/// What each object may do: any `Specification`, a step on the operations of `model`.
pub trait Objects {
    ghost objects: { ℕ → Specification };
}

/// Locality: a history is linearizable if the operations of each object alone have a valid
/// order. The objects may have any `Specification`.
pub fn locality_of<O: Objects>()
    ensures { (h : List Numbered)
        → IsHistory h
        → ((x : ℕ) → HasValidOrderOf O.objects h x)
        → IsLinearizableFor O.objects (events h) }
{}

/// The converse: if a history is linearizable, the operations of each object have a valid order.
pub fn linearizable_has_orders_of<O: Objects>()
    ensures { (h : List Numbered)
        → IsHistory h
        → IsLinearizableFor O.objects (events h)
        → (x : ℕ) → HasValidOrderOf O.objects h x }
{}

/// An order of the operations of an object of one kind is valid for the kind's own specification
/// exactly if it is valid in the contents of all kinds, by which programs keep objects.
pub fn one_kind_among_all()
    ensures { (kind : Kind) (calls : List Call) (order : List ℤ)
        → (IsValidOrderOf (specification kind) calls order ↔ IsValidOrder kind calls order) }
{}

/// Locality, if each object is of one of the kinds here.
pub fn locality()
    ensures { (kinds : ℕ → Kind) (h : List Numbered)
        → IsHistory h
        → ((x : ℕ) → HasValidOrder kinds h x)
        → IsLinearizable kinds (events h) }
{}

/// Locality, from valid orders of the objects that some operation names: the others need none.
pub fn named_objects()
    ensures { (kinds : ℕ → Kind) (h : List Numbered)
        → IsHistory h
        → All (λ call. HasValidOrder kinds h call.object) (calls_in h)
        → IsLinearizable kinds (events h) }
{}

/// The converse of locality, if each object is of one of the kinds here.
pub fn linearizable_has_orders()
    ensures { (kinds : ℕ → Kind) (h : List Numbered)
        → IsHistory h
        → IsLinearizable kinds (events h)
        → (x : ℕ) → HasValidOrder kinds h x }
{}

/// What is linearizable here is linearizable as the text of Herlihy and Wing reads. The converse
/// does not hold: an operation that is pending may there take effect before one that returned
/// before it.
pub fn linearizable_as_written()
    ensures { (kinds : ℕ → Kind) (h : List Event)
        → IsLinearizable kinds h
        → IsLinearizableAsWritten (λ x. specification (kinds x)) h }
{}

/// What a completion adds: a well-formed history goes on with responses into a well-formed history
/// exactly if each of them matches a pending invocation, and no two are of one process.
pub fn completion_in_words()
    ensures { (h added : List Event)
        → IsWellFormed h
        → All (λ e. is_invocation e ≡ false) added
        → (IsWellFormed (h ++ added) ↔ AnswersPending h added) }
{}
