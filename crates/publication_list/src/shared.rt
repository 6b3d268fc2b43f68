//! A roster that its walker, the owners of its rows and others share.

ghost use Rattle.std.specs.Prelude.{◌≡◌, ◌<◌, ◌≤◌, ◌∷◌, ◌++◌, ℕ, [], length, slice_index, remove};
ghost use Rattle.std.specs.Prelude.{IfOk, ◌+◌};
ghost use Rattle.publication_list.specs.PublicationList.{WalkMeets};
ghost use Rattle.publication_list.specs.Dealing.{AreGrown, HaveRoom};
ghost use Rattle.publication_list.specs.Limits.{max_rows};

use crate::{Enlist, Place, Roster, Walker};
use std::alloc::{AllocError, Global};
use std::marker::Model;
use std::sync::Arc;

/// A share in a roster. It takes no step: contracts see which roster it is.
#[derive(Drop)]
pub struct SharedRoster {
    roster: Arc<Roster>,
}

impl Model for SharedRoster {
    ghost use Rattle.std.specs.Arc.{arc_value};
    ghost use Rattle.atomic_table.specs.Seated.{TableId};

    ghost Value = { TableId };

    ghost view = { λ r. (arc_value r.roster).id };
}

/// The place of a row, with the roster that it is of.
#[derive(Drop)]
pub struct SharedPlace {
    roster: Arc<Roster>,
    place: Place,
}

impl Model for SharedPlace {
    ghost use Rattle.std.specs.Prelude.{◌≡◌};
    ghost use Rattle.std.specs.Arc.{arc_value};
    ghost use Rattle.publication_list.specs.Calls.{PlaceSeen};

    ghost Value = { PlaceSeen };

    ghost view = { λ p. p.place };

    ghost invariant = { λ p. p.place.roster ≡ (arc_value p.roster).id };
}

impl SharedPlace {
    /// Calls `Roster::enlist` on the place's own roster.
    pub fn enlist(&mut self) -> Enlist
        ensures { self.new ≡ record self.old { tries = self.old.tries ++ result ∷ [] } }
    {
        self.roster.enlist(&mut self.place)
    }
}

/// A walker, with the roster that it is of.
#[derive(Drop)]
pub struct SharedWalker {
    roster: Arc<Roster>,
    walker: Walker,
}

impl Model for SharedWalker {
    ghost use Rattle.std.specs.Prelude.{◌≡◌};
    ghost use Rattle.std.specs.Arc.{arc_value};
    ghost use Rattle.publication_list.specs.Calls.{WalkerSeen};

    ghost Value = { WalkerSeen };

    ghost view = { λ w. w.walker };

    ghost invariant = { λ w. w.walker.roster ≡ (arc_value w.roster).id };
}

impl SharedWalker {
    /// Returns the rows of the walker, as `Walker::rows` does.
    pub fn rows(&self) -> &[u32]
        ensures rows { result.now ≡ self.now.rows }
        ensures places { (k : ℕ) → k < length self.now.rows
            → slice_index self.now.rows k < self.now.places }
        ensures few { length self.now.rows ≤ self.now.places }
        ensures limit { self.now.places ≤ 32 }
    {
        self.walker.rows()
    }

    /// Calls `Roster::walk` on the walker's own roster.
    pub fn walk(&mut self)
        ensures same { (self.new.roster ≡ self.old.roster) × (self.new.places ≡ self.old.places) }
        ensures met { WalkMeets self.old.rows self.new.rows }
        ensures looked { self.new.walks ≡ self.old.walks ++ self.new.rows ∷ [] }
    {
        self.roster.walk(&mut self.walker);
    }

    /// Calls `Roster::unlink` on the walker's own roster.
    pub fn unlink(&mut self, at: usize)
        requires { (1 ≤ at) × (at < length self.old.rows) }
        ensures { self.new ≡ record self.old { rows = remove self.old.rows at } }
    {
        self.roster.unlink(&mut self.walker, at);
    }
}

impl Roster {
    /// Makes a roster, and gives each owner the place of its row, after the places that it has.
    /// After an error some owners may have one place more.
    pub fn new_with_places(
        alloc: Global,
        owners: &mut Vec<Vec<SharedPlace>>,
    ) -> Result<(SharedRoster, SharedWalker), AllocError>
        requires few { (0 < length owners.old.items) × (length owners.old.items < 1 + max_rows) }
        requires room { HaveRoom owners.old.items }
        ensures walker { IfOk result (λ r.
            r.1 ≡ record {
              roster = r.0;
              places = length owners.old.items;
              rows = [];
              walks = [];
            }) }
        ensures grown { IfOk result (λ r. AreGrown r.0 owners.old.items owners.new.items) }
    {
        let (roster, mut places, walker) = Roster::new(alloc, owners.len() as u32)?;
        let shared = Arc::new(alloc, roster)?;
        while let Some(place) = places.pop() {
            let roster = Arc::try_clone(&shared)?;
            owners[places.len()].push_reserved(SharedPlace { roster, place });
        }
        let named = SharedRoster {
            roster: Arc::try_clone(&shared)?,
        };
        let walker = SharedWalker {
            roster: shared,
            walker,
        };
        Ok((named, walker))
    }
}
