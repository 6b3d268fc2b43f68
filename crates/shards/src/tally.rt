//! How many maps of clients each object has.

ghost use Rattle.std.specs.Prelude.{◌≡◌, ℕ, IfOk, OnOk};
ghost use Rattle.shards.specs.LargeObjects.{AreLarge};

use crate::division::LargeObject;
use history::MAX_MAPS;
use number_map::NumberMap;
use std::alloc::{AllocError, Global};

/// The number of the maps on each object, and a list of the objects with more maps than a text may
/// have.
#[derive(Drop)]
pub(crate) struct Tally {
    pub(crate) counts: NumberMap<u32>,
    pub(crate) large: Vec<u32>,
}

impl Tally {
    ghost use Rattle.shards.specs.Tallies.{CountsOne, IsTally};

    /// No maps yet.
    pub fn new(alloc: Global) -> Tally
        ensures { IsTally result (λ x. 0) }
    {
        Tally {
            counts: NumberMap::new(alloc),
            large: Vec::new(alloc),
        }
    }

    /// Counts one more map on this object.
    pub fn count(&mut self, object: u32) -> Result<(), AllocError>
        ensures { OnOk result (CountsOne object self.old self.new) }
    {
        let before = self.counts.get(u64::from(object)).unwrap_or(0);
        // A history has no more maps than can be counted.
        let Some(count) = before.checked_add(1) else {
            return Err(AllocError);
        };
        self.counts.insert(u64::from(object), count)?;
        if before as usize == MAX_MAPS {
            self.large.push(object)?;
        }
        Ok(())
    }

    /// The objects with more maps than a text may have.
    pub fn large(&self, alloc: Global) -> Result<Vec<LargeObject>, AllocError>
        ensures { IfOk result (λ v. (counts : ℕ → ℕ) → IsTally self.now counts
            → AreLarge counts v.items) }
    {
        let mut objects = Vec::from_slice(alloc, &self.large)?;
        objects.sort_unstable();
        let mut large = Vec::new(alloc);
        for object in &objects {
            let maps = self.counts.get(u64::from(*object)).unwrap_or(0);
            large.push(LargeObject {
                object: *object,
                maps,
            })?;
        }
        Ok(large)
    }
}
