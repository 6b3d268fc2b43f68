//! What waits to be written of one shard.

ghost use Rattle.std.specs.Prelude.{◌≡◌, ◌+◌, ◌++◌, ◌∷◌, [], ℕ, false, decimal, vec_len};
ghost use Rattle.std.specs.Prelude.{true, IfOk, OnOk, OnErr};
ghost use Rattle.shards.specs.Taking.{Flushes, NoneWait, maps_in};

use crate::folder::Folder;
use edn::{Failed, push_natural};
use std::alloc::{AllocError, Global};

/// Lines that wait to be written to the files of a shard: maps, and their places in the full
/// history; and how many maps the shard has so far, with those that were written.
#[derive(Drop)]
pub(crate) struct Waiting {
    pub(crate) maps: Vec<u8>,
    pub(crate) places: Vec<u8>,
    pub(crate) count: u32,
}

impl Waiting {
    /// Nothing waits.
    pub fn new(alloc: Global) -> Waiting
        ensures maps { result.maps.items ≡ [] }
        ensures places { result.places.items ≡ [] }
        ensures count { result.count ≡ 0 }
    {
        Waiting {
            maps: Vec::new(alloc),
            places: Vec::new(alloc),
            count: 0,
        }
    }

    /// Adds a map, as it is written, and its place. After an error nothing is known of the lines.
    pub fn add(&mut self, map: &[u8], place: u32) -> Result<(), AllocError>
        ensures maps { OnOk result
            (self.new.maps.items ≡ self.old.maps.items ++ (map.now ++ 10 ∷ [])) }
        ensures places { OnOk result
            (self.new.places.items ≡ self.old.places.items ++ (decimal place ++ 10 ∷ [])) }
        ensures count { OnOk result (self.new.count ≡ self.old.count + 1) }
    {
        // Cannot happen: a history has fewer than 2^32 maps. It would be reported as a failed
        // allocation.
        let Some(count) = self.count.checked_add(1) else {
            return Err(AllocError);
        };
        self.maps.extend_from_slice(map)?;
        self.maps.push(b'\n')?;
        push_natural(&mut self.places, u64::from(place))?;
        self.places.push(b'\n')?;
        self.count = count;
        Ok(())
    }

    /// Writes all lines to the folder, if those of maps have at least this many bytes.
    pub fn flush<D: Folder>(
        &mut self,
        folder: &mut D,
        shard: u16,
        least: usize,
    ) -> Result<(), Failed>
        requires { D.broken folder.old ≡ false }
        ensures flushes { OnOk result
            (Flushes shard self.old self.new (D.files folder.old) (D.files folder.new)) }
        ensures usable { OnOk result (D.broken folder.new ≡ false) }
        ensures failed { OnErr result (D.broken folder.new ≡ true) }
        ensures none_wait { OnOk result
            (least ≡ 0 → (self.new.maps.items ≡ []) × (self.new.places.items ≡ [])) }
    {
        if self.maps.len() < least {
            return Ok(());
        }
        folder.add(shard, &self.maps, &self.places)?;
        self.maps.clear();
        self.places.clear();
        Ok(())
    }
}

/// Returns this many shards, with nothing waiting.
pub(crate) fn waiting_of(alloc: Global, shards: u16) -> Result<Vec<Waiting>, AllocError>
    ensures long { IfOk result (λ v. vec_len v ≡ shards) }
    ensures none_wait { IfOk result (λ v. NoneWait v.items) }
    ensures none_counted { IfOk result (λ v. (s : ℕ) → maps_in v.items s ≡ 0) }
{
    let mut waiting = Vec::new(alloc);
    for _ in 0..shards {
        waiting.push(Waiting::new(alloc))?;
    }
    Ok(waiting)
}
