//! Maps whose keys are numbers.
#![tactic(auto)]

ghost use Rattle.std.specs.Prelude.{◌≡◌, ◌≢◌, ◌<◌, ◌↔◌, ◌++◌, ◌∷◌, ℕ, [], length, Some, None};
ghost use Rattle.std.specs.Prelude.{OnOk, OnErr, IfOk, IsTrue, option_map, unwrap_or};
ghost use Rattle.number_map.specs.Lookup.{value_of};

use std::alloc::{AllocError, Global};
use std::collections::BTreeMap;
use std::mem;

/// From this key on values are in the sorted map.
const TABLE: u64 = 65_536;

/// A map from numbers to values. The values of small numbers are in a table, which is as long as
/// the greatest of them needs; the others are in a sorted map.
#[derive(Drop)]
pub struct NumberMap<V> {
    table: Vec<Option<V>>,
    others: BTreeMap<u64, V>,
}

impl<V> NumberMap<V> {
    /// No key has a value. No memory is taken.
    pub fn new(alloc: Global) -> NumberMap<V>
        ensures { (k : ℕ) → value_of result k ≡ None }
    {
        NumberMap {
            table: Vec::new(alloc),
            others: BTreeMap::new(alloc),
        }
    }
}

impl<V: Copy> NumberMap<V> {
    /// The value of the key, if it has one.
    #[inline]
    pub fn get(&self, key: u64) -> Option<V>
        ensures { result ≡ value_of self.now key }
    {
        if key >= TABLE {
            return self.others.get(&key).copied();
        }
        match self.table.get(key as usize) {
            Some(value) => *value,
            None => None,
        }
    }
}

impl<V: Drop> NumberMap<V> {
    /// Makes the table long enough for this place.
    fn reach(&mut self, place: usize) -> Result<(), AllocError>
        ensures values { (k : ℕ) → value_of self.new k ≡ value_of self.old k }
        ensures reached { OnOk result (place < length self.new.table.items) }
    {
        'slots: while self.table.len() <= place {
            self.table.push(None)?;
        }
        Ok(())
    }

    /// Gives the key this value, in place of the one that it had. After an error each key has its
    /// value as before.
    #[inline]
    pub fn insert(&mut self, key: u64, value: V) -> Result<(), AllocError>
        ensures own { OnOk result (value_of self.new key ≡ Some value) }
        ensures others { (k : ℕ) → k ≢ key → value_of self.new k ≡ value_of self.old k }
        ensures refused { OnErr result (value_of self.new key ≡ value_of self.old key) }
    {
        if key >= TABLE {
            self.others.insert(key, value)?;
            return Ok(());
        }
        let place = key as usize;
        if place >= self.table.len() {
            self.reach(place)?;
        }
        self.table[place] = Some(value);
        Ok(())
    }

    /// Takes the value of the key away.
    #[inline]
    pub fn remove(&mut self, key: u64) -> Option<V>
        ensures value { result ≡ value_of self.old key }
        ensures own { value_of self.new key ≡ None }
        ensures others { (k : ℕ) → k ≢ key → value_of self.new k ≡ value_of self.old k }
    {
        if key >= TABLE {
            return self.others.remove(&key);
        }
        let place = key as usize;
        if place < self.table.len() {
            return mem::replace(&mut self.table[place], None);
        }
        None
    }
}

impl<V: Drop> NumberMap<Vec<V>> {
    /// Puts one more value at the end of the key's list, which is empty if the key has no value.
    /// Says whether the key had no value before. After an error the list of the key may be lost.
    #[inline]
    pub fn push(&mut self, alloc: Global, key: u64, value: V) -> Result<bool, AllocError>
        ensures own { OnOk result (option_map (λ v. v.items) (value_of self.new key)
            ≡ Some (unwrap_or (option_map (λ v. v.items) (value_of self.old key)) []
            ++ value ∷ [])) }
        ensures others { (k : ℕ) → k ≢ key → value_of self.new k ≡ value_of self.old k }
        ensures first { IfOk result (λ first. IsTrue first ↔ (value_of self.old key ≡ None)) }
    {
        let place = key as usize;
        if key < TABLE && place < self.table.len() {
            if let Some(list) = &mut self.table[place] {
                list.push(value)?;
                return Ok(false);
            }
        }
        let list = self.remove(key);
        let is_first = list.is_none();
        let mut list = list.unwrap_or(Vec::new(alloc));
        list.push(value)?;
        self.insert(key, list)?;
        Ok(is_first)
    }
}
