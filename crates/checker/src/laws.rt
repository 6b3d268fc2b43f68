//! What the definitions of faults and refusals promise, as functions that do nothing.

ghost use Rattle.std.specs.Prelude.{◌≡◌, ◌≢◌, ℤ, List, IfErr};
ghost use Rattle.std.specs.declared.result.Result.{Result};
ghost use Rattle.certificate.specs.Denotes.{AreDistinct};
ghost use Rattle.certificate.specs.declared.Certificate.{Certificate};
ghost use Rattle.checker.specs.Faults.{IsFirstFault};
ghost use Rattle.checker.specs.Refusals.{IsCheckAnswer, IsFirstRefusal};
ghost use Rattle.checker.specs.declared.refusal.OrderFault.{OrderFault};
ghost use Rattle.checker.specs.declared.refusal.Refusal.{Refusal};
ghost use Rattle.events.specs.declared.event.Event.{Event};
ghost use Rattle.model.specs.Orders.{Call};
ghost use Rattle.model.specs.declared.Kind.{Kind};

/// An order has one first fault at most.
pub fn one_first_fault()
    ensures { (kind : Kind) (calls : List Call) (order : List ℤ) (one other : OrderFault)
        → IsFirstFault kind calls order one → IsFirstFault kind calls order other → one ≡ other }
{}

/// Certificates of different objects have one first refusal at most. So two checks of the same
/// certificates, as `check_all` and `check_parallel`, have one answer. The law does not cover
/// allocation failures.
pub fn one_first_refusal()
    ensures refusal { (events : List Event) (certificates : List Certificate)
        → AreDistinct certificates → (one other : Refusal)
        → one ≢ Refusal.NoMemory → other ≢ Refusal.NoMemory
        → IsFirstRefusal events certificates one → IsFirstRefusal events certificates other
        → one ≡ other }
    ensures answer { (events : List Event) (certificates : List Certificate)
        → AreDistinct certificates → (one other : Result Unit Refusal)
        → IsCheckAnswer events certificates one → IsCheckAnswer events certificates other
        → IfErr one (λ e. e ≢ Refusal.NoMemory) → IfErr other (λ e. e ≢ Refusal.NoMemory)
        → one ≡ other }
{}
