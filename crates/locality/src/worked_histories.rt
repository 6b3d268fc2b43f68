//! What the definitions say of small histories, which `specs/WorkedHistories.antt` writes out.

ghost use Rattle.std.specs.Prelude.{List, ℤ, pos, [], ◌∷◌};
ghost use Rattle.model.specs.declared.Kind.{Kind};
ghost use Rattle.model.specs.Objects.{specification};
ghost use Rattle.model.specs.Linearizable.{IsLinearizable};
ghost use Rattle.model.specs.Orders.{events, IsHistory, calls_on, IsValidOrder};
ghost use Rattle.locality.specs.AsWritten.{IsLinearizableAsWritten};
ghost use Rattle.locality.specs.WorkedHistories.{enqueued_then_dequeued, overlapping_enqueues};
ghost use Rattle.locality.specs.WorkedHistories.{dequeued_out_of_turn, dequeued_while_pending};
ghost use Rattle.locality.specs.WorkedHistories.{pending_overtakes_returned, mutex_passed_on};
ghost use Rattle.locality.specs.WorkedHistories.{found_empty_while_pending, two_queues};
ghost use Rattle.locality.specs.WorkedHistories.{invoked_while_pending, returned_unasked};
ghost use Rattle.locality.specs.WorkedHistories.{returned_elsewhere, numbered_backwards};

/// One process alone enqueues and dequeues. Its order names each operation that returned, once, and
/// no others.
pub fn use_in_turn_is_linearizable()
    ensures history { IsHistory enqueued_then_dequeued }
    ensures valid { IsValidOrder Kind.Queue (calls_on 0 enqueued_then_dequeued)
        (pos 0 ∷ pos 2 ∷ []) }
    ensures linearizable { IsLinearizable (λ x. Kind.Queue) (events enqueued_then_dequeued) }
    ensures refuses_repeated { ¬ IsValidOrder Kind.Queue (calls_on 0 enqueued_then_dequeued)
        (pos 0 ∷ pos 0 ∷ pos 2 ∷ []) }
    ensures refuses_omitted { ¬ IsValidOrder Kind.Queue (calls_on 0 enqueued_then_dequeued)
        (pos 0 ∷ []) }
    ensures refuses_unknown { ¬ IsValidOrder Kind.Queue (calls_on 0 enqueued_then_dequeued)
        (pos 0 ∷ pos 2 ∷ pos 3 ∷ []) }
{}

/// Operations that overlap may take effect in either order. Here the one that was invoked later
/// comes first, and the reply of the dequeue refuses the other order.
pub fn overlapping_operations_may_change_places()
    ensures history { IsHistory overlapping_enqueues }
    ensures valid { IsValidOrder Kind.Queue (calls_on 0 overlapping_enqueues)
        (pos 1 ∷ pos 0 ∷ pos 4 ∷ []) }
    ensures linearizable { IsLinearizable (λ x. Kind.Queue) (events overlapping_enqueues) }
    ensures refuses_wrong_reply { ¬ IsValidOrder Kind.Queue (calls_on 0 overlapping_enqueues)
        (pos 0 ∷ pos 1 ∷ pos 4 ∷ []) }
{}

/// If one enqueue returned before the next began, no order gives the second value first.
pub fn operations_in_turn_keep_their_order()
    ensures history { IsHistory dequeued_out_of_turn }
    ensures not_linearizable { ¬ IsLinearizable (λ x. Kind.Queue) (events dequeued_out_of_turn) }
    ensures no_order { (order : List ℤ)
        → ¬ IsValidOrder Kind.Queue (calls_on 0 dequeued_out_of_turn) order }
{}

/// An operation that is pending may have taken effect.
pub fn pending_operation_may_take_effect()
    ensures history { IsHistory dequeued_while_pending }
    ensures valid { IsValidOrder Kind.Queue (calls_on 0 dequeued_while_pending)
        (pos 0 ∷ pos 1 ∷ []) }
    ensures linearizable { IsLinearizable (λ x. Kind.Queue) (events dequeued_while_pending) }
{}

/// An operation that is pending need not have taken effect: then it is not in the order.
pub fn pending_operation_may_be_left_out()
    ensures history { IsHistory found_empty_while_pending }
    ensures valid { IsValidOrder Kind.Queue (calls_on 0 found_empty_while_pending) (pos 1 ∷ []) }
    ensures linearizable { IsLinearizable (λ x. Kind.Queue) (events found_empty_while_pending) }
{}

/// An operation that is pending takes effect after those that returned before it was invoked. Read
/// literally, Herlihy and Wing order only operations that returned; this project orders pending
/// ones too.
pub fn pending_operation_does_not_overtake()
    ensures history { IsHistory pending_overtakes_returned }
    ensures not_linearizable { ¬ IsLinearizable (λ x. Kind.Queue)
        (events pending_overtakes_returned) }
    ensures as_written { IsLinearizableAsWritten (λ x. specification Kind.Queue)
        (events pending_overtakes_returned) }
{}

/// Each object has an order of its own, and together these make the whole history linearizable.
pub fn each_object_has_its_order()
    ensures history { IsHistory two_queues }
    ensures first_valid { IsValidOrder Kind.Queue (calls_on 0 two_queues) (pos 2 ∷ pos 0 ∷ []) }
    ensures second_valid { IsValidOrder Kind.Queue (calls_on 1 two_queues) (pos 3 ∷ pos 1 ∷ []) }
    ensures linearizable { IsLinearizable (λ x. Kind.Queue) (events two_queues) }
{}

/// A mutex is acquired by one process at a time: the second acquire comes after the release.
pub fn mutex_is_held_by_one()
    ensures history { IsHistory mutex_passed_on }
    ensures valid { IsValidOrder Kind.Mutex (calls_on 0 mutex_passed_on)
        (pos 0 ∷ pos 3 ∷ pos 2 ∷ []) }
    ensures refuses_acquire_of_held { ¬ IsValidOrder Kind.Mutex (calls_on 0 mutex_passed_on)
        (pos 0 ∷ pos 2 ∷ pos 3 ∷ []) }
    ensures linearizable { IsLinearizable (λ x. Kind.Mutex) (events mutex_passed_on) }
{}

/// A process has one operation at a time: it invokes none while one is pending, and none returns
/// that it did not invoke.
pub fn process_is_sequential()
    ensures refuses_second_invocation { ¬ IsHistory invoked_while_pending }
    ensures refuses_stray_response { ¬ IsHistory returned_unasked }
    ensures refuses_other_object { ¬ IsHistory returned_elsewhere }
    ensures refuses_falling_numbers { ¬ IsHistory numbered_backwards }
{}
