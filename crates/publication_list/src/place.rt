//! The place of a row, and the two halves of a try to enlist it.

ghost use Rattle.std.specs.Prelude.{◌≡◌, ◌∷◌, ◌++◌, [], true, false};
ghost use Rattle.publication_list.specs.Inside.{IsRowPlace, after_look, is_missed, tries_of};
ghost use Rattle.publication_list.specs.Limits.{list_words};

use crate::list_table::{Enlist, HEAD, ListSeat, MARKS, NEXTS, Words};
use crate::plays::{Enlists, Links, Looks, Sees, Wakes};
use std::marker::Model;

/// The place of a row in the list, which the row's owner has.
#[derive(Drop)]
pub struct Place {
    pub(crate) seat: ListSeat,
    pub(crate) row: u32,
    // The row is awake, and not listed.
    pub(crate) trying: bool,
}

impl Model for Place {
    ghost use Rattle.publication_list.specs.Calls.{PlaceSeen};
    ghost use Rattle.publication_list.specs.Inside.{IsRowPlace, tries_of};

    ghost Value = { PlaceSeen };

    ghost view = { λ p. record
        { roster = p.seat.table_id; row = p.row; tries = tries_of p.seat.me.0 } };

    ghost invariant = { λ p. IsRowPlace p.row p.trying (tries_of p.seat.me.0) p.seat.me };
}

/// Wakes the row if it is asleep, and returns whether it was.
pub(crate) fn wake(shared: &Words, seat: &mut ListSeat, row: u32) -> bool
    requires table { (seat.old.table_id ≡ shared.now.table_id)
        × (shared.now.table_id.words ≡ list_words) }
    requires seat { IsRowPlace row false (tries_of seat.old.me.0) seat.old.me }
    ensures table { seat.new.table_id ≡ seat.old.table_id }
    ensures seat { IsRowPlace row result (after_look result (tries_of seat.old.me.0)) seat.new.me }
{
    let mark = MARKS + row as usize;
    if shared.load::<Looks>(seat, mark) != 0 {
        return false;
    }
    shared.store::<Wakes>(seat, mark, 1);
    true
}

/// Tries to put the row in front of the list.
pub(crate) fn try_to_link(shared: &Words, seat: &mut ListSeat, row: u32) -> Enlist
    requires table { (seat.old.table_id ≡ shared.now.table_id)
        × (shared.now.table_id.words ≡ list_words) }
    requires seat { IsRowPlace row true (tries_of seat.old.me.0) seat.old.me }
    ensures table { seat.new.table_id ≡ seat.old.table_id }
    ensures seat { IsRowPlace row (is_missed result) (tries_of seat.old.me.0 ++ result ∷ [])
        seat.new.me }
{
    let first = shared.load::<Sees>(seat, HEAD);
    shared.store::<Links>(seat, NEXTS + row as usize, first);
    if shared.compare_exchange::<Enlists>(seat, HEAD, first, 1 + row as u64) != first {
        return Enlist::Missed;
    }
    Enlist::Listed
}
