//! The walker of a roster, and a walk.

ghost use Rattle.std.specs.Prelude.{◌≡◌, ◌<◌, ◌≤◌, ◌∷◌, ◌++◌, ℕ, [], length, slice_index};
ghost use Rattle.std.specs.Prelude.{vec_capacity};
ghost use Rattle.publication_list.specs.PublicationList.{WalkMeets, word_at};
ghost use Rattle.publication_list.specs.Inside.{HasMetRows, list_left, made_of, walks_of};
ghost use Rattle.publication_list.specs.Limits.{list_words};

use crate::list_table::{HEAD, ListSeat, NEXTS, Words};
use crate::plays::{Follows, Meets};
use std::marker::Model;

/// Who walks the list and takes rows out.
#[derive(Drop)]
pub struct Walker {
    pub(crate) seat: ListSeat,
    pub(crate) places: u32,
    pub(crate) rows: Vec<u32>,
}

impl Model for Walker {
    ghost use Rattle.publication_list.specs.Calls.{WalkerSeen};
    ghost use Rattle.publication_list.specs.Inside.{IsWalker, walks_of};

    ghost Value = { WalkerSeen };

    ghost view = { λ w. record {
      roster = w.seat.table_id;
      places = w.places;
      rows = w.rows.items;
      walks = walks_of w.seat.me.0;
    } };

    ghost invariant = { λ w. IsWalker w.places w.rows (walks_of w.seat.me.0) w.seat.me };
}

impl Walker {
    /// The rows that the last walk met, less those unlinked since.
    pub fn rows(&self) -> &[u32]
        ensures rows { result.now ≡ self.now.rows }
        ensures places { (k : ℕ) → k < length self.now.rows
            → slice_index self.now.rows k < self.now.places }
        ensures few { length self.now.rows ≤ self.now.places }
        ensures limit { self.now.places ≤ 32 }
    {
        self.rows.as_slice()
    }
}

/// Finds the list as it is now, from the head on.
pub(crate) fn meet(shared: &Words, seat: &mut ListSeat, rows: &mut Vec<u32>)
    requires table { (seat.old.table_id ≡ shared.now.table_id)
        × (shared.now.table_id.words ≡ list_words) }
    requires seat { HasMetRows (list_left seat.old.me.0) (walks_of seat.old.me.0) seat.old.me }
    requires room { (made_of seat.old.me.0 ≤ 32) × (made_of seat.old.me.0 ≤ vec_capacity rows.old) }
    ensures table { seat.new.table_id ≡ seat.old.table_id }
    ensures seat { HasMetRows rows.new.items (walks_of seat.old.me.0 ++ rows.new.items ∷ [])
        seat.new.me }
    ensures made { made_of seat.new.me.0 ≡ made_of seat.old.me.0 }
    ensures met { WalkMeets (list_left seat.old.me.0) rows.new.items }
    ensures low { (k : ℕ) → k < length rows.new.items
        → slice_index rows.new.items k < made_of seat.old.me.0 }
    ensures few { length rows.new.items ≤ made_of seat.old.me.0 }
    ensures room { vec_capacity rows.new ≡ vec_capacity rows.old }
{
    rows.clear();
    let mut at = shared.load::<Meets>(seat, HEAD);
    while at != 0 {
        let row = at - 1;
        rows.push_reserved(row as u32);
        at = shared.load::<Follows>(seat, NEXTS + row as usize);
    }
}

/// The word that leads to this place.
pub(crate) fn word_to(rows: &[u32], at: usize) -> u64
    ensures { result ≡ word_at rows.now at }
{
    if at < rows.len() {
        1 + rows[at] as u64
    } else {
        0
    }
}
