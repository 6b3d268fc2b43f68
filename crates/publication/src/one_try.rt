//! One try at a word: a look, and then the exchange, if it can hit.

ghost use Rattle.std.specs.Prelude.{◌≡◌, ◌≢◌, ℕ, ◌<◌, ◌==◌};
ghost use mathlib.Core.Option.{none};
ghost use prog.Atomic.{either};
ghost use Rattle.atomic_table.specs.Table.{step, Allows, Me};

use atomic_table::{Play, Seat, Shared, TableRule};

/// Exchanges `old` for `new`, as `compare_exchange` does. If a look at the word finds another
/// value, that is a miss, and no exchange is made: a load takes the word from no other processor.
pub(crate) fn look_and_exchange<S, V, K, P: TableRule<S, V, K>, L: Play<S, V>, M: Play<S, V>>(
    shared: &Shared<S, V, K, P>,
    seat: &mut Seat<S, V>,
    word: usize,
    old: u64,
    new: u64,
) -> u64
    requires table { (seat.old.table_id ≡ shared.now.table_id)
        × (word < shared.now.table_id.words) }
    requires look { Allows (P.holds shared.now.key) shared.now.table_id.slots seat.old.id
        seat.old.me word
        (λ n. n) (L.then (step shared.now.table_id.slots word 0 0 none) seat.old.me) }
    requires exchange { Allows (P.holds shared.now.key) shared.now.table_id.slots seat.old.id
        seat.old.me word
        (λ n. either (n == old) new n)
        (M.then (step shared.now.table_id.slots word old new none) seat.old.me) }
    // A look that finds `old` tells nothing, and one that finds another value tells what a miss
    // does.
    requires found { (m : Me S V)
        → L.then (step shared.now.table_id.slots word 0 0 none) seat.old.me old m →
        m ≡ seat.old.me }
    requires missed { (n : ℕ) (m : Me S V) → n ≢ old →
        L.then (step shared.now.table_id.slots word 0 0 none) seat.old.me n m →
        M.then (step shared.now.table_id.slots word old new none) seat.old.me n m }
    ensures table { (seat.new.table_id ≡ seat.old.table_id) × (seat.new.id ≡ seat.old.id) }
    ensures tried { M.then (step shared.now.table_id.slots word old new none) seat.old.me result
        seat.new.me }
{
    let found = shared.load::<L>(seat, word);
    if found != old {
        return found;
    }
    shared.compare_exchange::<M>(seat, word, old, new)
}
