//! Closure under projection, prefixes, suffixes, cells and entries, and without what was done with
//! a value that is absent; the bounds of the two counts; and that cuts name one part at most, which
//! has a valid order if its operations have one as the history says them: functions that do
//! nothing, whose contracts are theorems.

ghost use Rattle.std.specs.Prelude.{◌≡◌, ◌<◌, ◌≤◌, ◌+◌, ℕ, ℤ, Bool, List, Option, Some};
ghost use Rattle.std.specs.Prelude.{All, AllPairs, Contains, count_by, true};
ghost use Rattle.model.specs.declared.Kind.{Kind};
ghost use Rattle.model.specs.declared.AnyOp.{AnyOp};
ghost use Rattle.model.specs.declared.AnyReply.{AnyReply};
ghost use Rattle.model.specs.Objects.{kind_of};
ghost use Rattle.model.specs.Orders.{Call, Return, IsValidOrder};
ghost use Rattle.cuts.specs.declared.counting.Counted.{Counted};
ghost use Rattle.cuts.specs.declared.cutting.Cut.{Cut};
ghost use Rattle.cuts.specs.Absent.{IsAbsent, calls_without};
ghost use Rattle.cuts.specs.Ahead.{ahead_before, found_by, is_put_ahead, are_settled, may_precede};
ghost use Rattle.cuts.specs.Kinds.Containers.{is_value_ahead};
ghost use Rattle.cuts.specs.Cells.{cell_calls, entry_calls};
ghost use Rattle.cuts.specs.Counts.{most_before, set_since, taken_since};
ghost use Rattle.cuts.specs.Cuts.{NamesPart, kind_after_cuts};
ghost use Rattle.cuts.specs.Listed.{listed};
ghost use Rattle.cuts.specs.Parts.{IsClosed, kept_calls, calls_before, IsStart, calls_from};

/// Closure under projection: if the calls of an object have a valid order, a closed part has
/// one.
pub fn projection_is_valid()
    ensures { (kind : Kind) (calls : List Call) (all : Bool) (keeps : ℤ → Bool)
        (kept : ℕ → Bool) (order : List ℤ)
        → All (λ e. kind_of e.op ≡ kind) calls
        → AllPairs (λ a b. a.number < b.number) calls
        → IsClosed all keeps kept calls
        → IsValidOrder kind calls order
        → (part : List ℤ) × IsValidOrder kind (kept_calls kept calls) part }
{}

/// Closure under prefixes: if the calls have a valid order, those that were invoked before a
/// number have one, each pending if it had not returned by then.
pub fn prefix_is_valid()
    ensures { (kind : Kind) (calls : List Call) (until : ℕ) (order : List ℤ)
        → All (λ e. (r : Return) → e.returned ≡ Some r → e.number < r.at) calls
        → IsValidOrder kind calls order
        → (part : List ℤ) × IsValidOrder kind (calls_before until calls) part }
{}

/// If the calls have a valid order, and before a number at least as many removals of a value had
/// returned as puts of it were invoked, the calls without those have one.
pub fn without_is_valid()
    ensures { (kind : Kind) (calls : List Call) (v : ℤ) (number : ℕ) (order : List ℤ)
        → AllPairs (λ a b. a.number < b.number) calls
        → IsAbsent v number calls
        → IsValidOrder kind calls order
        → (part : List ℤ) × IsValidOrder kind (calls_without v number calls) part }
{}

/// Closure under suffixes: if the calls have a valid order, those of a suffix have one.
pub fn suffix_is_valid()
    ensures { (kind : Kind) (calls : List Call) (from at : ℕ) (first : Option (AnyOp × AnyReply))
        (order : List ℤ)
        → All (λ e. kind_of e.op ≡ kind) calls
        → IsStart calls from at first
        → IsValidOrder kind calls order
        → (part : List ℤ) × IsValidOrder kind (calls_from from at first calls) part }
{}

/// If the calls of an object have a valid order, a content was taken away from a number on no
/// more often than the object can have contained it before, and calls that had not returned before
/// this number set it.
pub fn count_is_bounded()
    ensures { (kind : Kind) (calls : List Call) (what : Counted) (from most : ℕ) (order : List ℤ)
        → AllPairs (λ a b. a.number < b.number) calls
        → All (λ e. (r : Return) → e.returned ≡ Some r → e.number < r.at) calls
        → most_before kind what from ≡ Some most
        → IsValidOrder kind calls order
        → taken_since what from calls ≤ most + set_since what from calls }
{}

/// If the calls of an object have a valid order, no more values definitely were ahead of what a
/// removal found than other calls can have taken out before it.
pub fn ahead_is_bounded()
    ensures { (kind : Kind) (calls : List Call) (removal : Call) (at from : ℕ)
        (found : Option ℤ) (order : List ℤ)
        → All (λ e. kind_of e.op ≡ kind) calls
        → AllPairs (λ a b. a.number < b.number) calls
        → All (λ e. (r : Return) → e.returned ≡ Some r → e.number < r.at) calls
        → Contains calls removal
        → found_by removal.op removal.returned ≡ Some (at, found)
        → are_settled found removal.op from calls ≡ true
        → IsValidOrder kind calls order
        → count_by (is_put_ahead (is_value_ahead found removal.op) from
        (ahead_before found removal.op removal.number calls)) calls
        ≤ count_by (may_precede (is_value_ahead found removal.op) removal.number at) calls }
{}

/// If the calls of an object have a valid order, those of a cell have one, whatever it keeps and
/// whatever its other value is.
pub fn cell_is_valid()
    ensures { (kind : Kind) (calls : List Call) (keeps : ℤ → Bool) (other : ℤ) (kept : ℕ → Bool)
        (order : List ℤ)
        → IsValidOrder kind calls order
        → (part : List ℤ) × IsValidOrder kind (cell_calls keeps other kept calls) part }
{}

/// If the calls of an object have a valid order, those of an entry have one as calls of a
/// register, whatever its key is, whatever it keeps and whatever its other value is.
pub fn entry_is_valid()
    ensures { (kind : Kind) (calls : List Call) (key : ℤ) (keeps : ℤ → Bool) (other : ℤ)
        (kept : ℕ → Bool) (order : List ℤ)
        → IsValidOrder kind calls order
        → (part : List ℤ)
        × IsValidOrder Kind.Register (entry_calls key keeps other kept calls) part }
{}

/// The cuts of a reason name one part at most: those of a suffix too, which begins with the call of
/// a number.
pub fn one_part()
    ensures { (cuts : List Cut) (calls p q : List Call)
        → AllPairs (λ a b. a.number < b.number) calls
        → NamesPart cuts calls p
        → NamesPart cuts calls q
        → p ≡ q }
{}

/// If the calls of the whole with the numbers of a part, as the history says them, have a valid
/// order alone, the part has one, as it is counted. So if the part has none, they have none.
pub fn listed_is_valid()
    ensures { (cuts : List Cut) (kind : Kind) (calls part : List Call) (order : List ℤ)
        → All (λ e. kind_of e.op ≡ kind) calls
        → AllPairs (λ a b. a.number < b.number) calls
        → All (λ e. (r : Return) → e.returned ≡ Some r → e.number < r.at) calls
        → NamesPart cuts calls part
        → IsValidOrder kind (listed part calls) order
        → (of_part : List ℤ) × IsValidOrder (kind_after_cuts cuts kind) part of_part }
{}
