//! A roster: one publication list, and its calls.

ghost use Rattle.std.specs.Prelude.{◌≡◌, ◌<◌, ◌≤◌, ◌∷◌, ◌++◌, [], length, remove, IfOk, None};
ghost use Rattle.std.specs.Prelude.{vec_len, vec_capacity, ◌+◌};
ghost use Rattle.publication_list.specs.declared.list_table.ListView.TheVariants as view;
ghost use Rattle.publication_list.specs.PublicationList.{WalkMeets};
ghost use Rattle.publication_list.specs.Calls.{AreRowPlaces};
ghost use Rattle.publication_list.specs.Limits.{list_words, max_rows};

use crate::list_table::{Enlist, ListSeat, ListTable, MARKS, NEXTS};
use crate::place::{Place, try_to_link, wake};
use crate::plays::{Makes, Sleeps, Unlinks};
use crate::walker::{Walker, meet, word_to};
use atomic_table::Table;
use std::alloc::{AllocError, Global};
use std::marker::Model;

/// How many words the table of a list has.
const WORDS: usize = 65;

/// The publication list of one object.
#[derive(Drop)]
pub struct Roster {
    table: ListTable,
    rows: u32,
}

impl Model for Roster {
    ghost use Rattle.std.specs.Prelude.{◌≡◌};
    ghost use Rattle.publication_list.specs.Calls.{RosterSeen};
    ghost use Rattle.publication_list.specs.Limits.{list_words};

    ghost Value = { RosterSeen };

    ghost view = { λ r. record { id = r.table.shared.table_id; rows = r.rows } };

    ghost invariant = { λ r. (r.table.shared.table_id.words ≡ list_words)
        × (r.table.shared.table_id.slots ≡ 0) };
}

/// The places of the first rows.
fn make_all(table: &ListTable, seat: &mut ListSeat, rows: u32, made: &mut Vec<Place>)
    requires table { (seat.old.table_id ≡ table.now.shared.table_id)
        × (table.now.shared.table_id.words ≡ list_words) }
    requires rows { rows < 1 + max_rows }
    requires seat { seat.old.me ≡ (view.Walker 0 [] None [], []) }
    requires made { (made.old.items ≡ []) × (vec_len made.old ≡ 0)
        × (rows ≤ vec_capacity made.old) }
    ensures table { seat.new.table_id ≡ seat.old.table_id }
    ensures seat { seat.new.me ≡ (view.Walker rows [] None [], []) }
    ensures made { AreRowPlaces seat.old.table_id rows made.new.items }
{
    for row in 0..rows {
        let chair = table.shared.split_seat::<Makes>(seat);
        made.push_reserved(Place {
            seat: chair,
            row,
            trying: false,
        });
    }
}

impl Roster {
    /// Makes a roster for this many rows, none of which is listed, with a place for each row, in
    /// rising order.
    pub fn new(alloc: Global, rows: u32) -> Result<(Roster, Vec<Place>, Walker), AllocError>
        requires { (0 < rows) × (rows < 1 + max_rows) }
        ensures rows { IfOk result (λ r. r.0.rows ≡ rows) }
        ensures places { IfOk result (λ r. AreRowPlaces r.0.id rows r.1.items) }
        ensures walker { IfOk result (λ r.
            r.2 ≡ record { roster = r.0.id; places = rows; rows = []; walks = [] }) }
    {
        let mut places = Vec::with_capacity(alloc, rows as usize)?;
        let room = Vec::with_capacity(alloc, rows as usize)?;
        let words = [0; WORDS];
        let (table, mut seat) = Table::of_words(alloc, &words, &rows)?;
        make_all(&table, &mut seat, rows, &mut places);
        let walker = Walker {
            seat,
            places: rows,
            rows: room,
        };
        Ok((Roster { table, rows }, places, walker))
    }

    /// Tries once to put the row in front of the list, unless it is active. The place then knows
    /// the result of this try (`tries`). Only an atomic step can add one, so a body without a step
    /// does not meet the clause.
    pub fn enlist(&self, place: &mut Place) -> Enlist
        requires { place.old.roster ≡ self.now.id }
        ensures { place.new ≡ record place.old { tries = place.old.tries ++ result ∷ [] } }
    {
        let shared = &self.table.shared;
        let seat = &mut place.seat;
        if !place.trying && !wake(shared, seat, place.row) {
            return Enlist::Already;
        }
        let tried = try_to_link(shared, seat, place.row);
        place.trying = tried == Enlist::Missed;
        tried
    }

    /// Walks the list: it meets newcomers, and then the rows that were left, in their order. They
    /// are the list as it was found by a load of its head, and only such a load adds a walk to
    /// those of the walker.
    pub fn walk(&self, walker: &mut Walker)
        requires { walker.old.roster ≡ self.now.id }
        ensures same { (walker.new.roster ≡ walker.old.roster)
            × (walker.new.places ≡ walker.old.places) }
        ensures met { WalkMeets walker.old.rows walker.new.rows }
        ensures looked { walker.new.walks ≡ walker.old.walks ++ walker.new.rows ∷ [] }
    {
        meet(&self.table.shared, &mut walker.seat, &mut walker.rows);
    }

    /// Takes a row out of the list, which is not the first that was met, and marks it inactive.
    pub fn unlink(&self, walker: &mut Walker, at: usize)
        requires roster { walker.old.roster ≡ self.now.id }
        requires at { (1 ≤ at) × (at < length walker.old.rows) }
        ensures { walker.new ≡ record walker.old { rows = remove walker.old.rows at } }
    {
        let shared = &self.table.shared;
        let seat = &mut walker.seat;
        let before = walker.rows[at - 1];
        let next = word_to(walker.rows.as_slice(), at + 1);
        let row = walker.rows.remove(at);
        shared.store::<Unlinks>(seat, NEXTS + before as usize, next);
        shared.store::<Sleeps>(seat, MARKS + row as usize, 0);
    }
}
