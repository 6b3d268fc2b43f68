//! Pairs of operations done and content, found by a hash.

ghost use Rattle.std.specs.Prelude.{◌≡◌, [], ◌∷◌, ◌++◌, IsTrue, OnOk};
ghost use Rattle.order_search.specs.Undoing.{reversible_content, content_kept};
ghost use Rattle.order_search.specs.Links.{LeadsThrough};
ghost use Rattle.order_search.specs.Remembered.{HasPair};

use crate::not_done::NotDone;
use crate::{KeptContent, Reversible};
use std::alloc::{AllocError, Global};

/// A pair: the operations below `high` except for those listed are done, and none above.
#[derive(Drop)]
pub(crate) struct Pair {
    pub hash: u64,
    pub high: u32,
    pub not_done: Vec<u32>,
    pub content: KeptContent,
}

/// Pairs, found by hash. `heads` has for each slot the number of a pair plus one, or 0; `links`
/// the same of the next pair of that slot, an earlier one.
#[derive(Drop)]
pub(crate) struct Pairs {
    pub heads: Vec<u32>,
    pub links: Vec<u32>,
    pub pairs: Vec<Pair>,
    /// How many bytes they take at most.
    pub bytes: usize,
}

fn slot_of(heads: &[u32], hash: u64) -> usize {
    (hash & (heads.len() as u64).wrapping_sub(1)) as usize
}

fn number_at(numbers: &[u32], k: usize) -> u32 {
    match numbers.get(k) {
        Some(number) => *number,
        None => 0,
    }
}

/// Whether this is the pair.
fn is_pair(pair: &Pair, hash: u64, high: u32, not_done: &NotDone, object: &Reversible) -> bool
    ensures high { IsTrue result → pair.now.high ≡ high }
    ensures not_done { IsTrue result →
        LeadsThrough not_done.now.next.items 0 pair.now.not_done.items high }
    ensures same { IsTrue result → content_kept pair.now.content ≡ reversible_content object.now }
{
    if pair.hash != hash || pair.high != high {
        return false;
    }
    if !not_done.is_below(high, &pair.not_done) {
        return false;
    }
    pair.content.is_in(object)
}

impl Pairs {
    pub fn new(alloc: Global) -> Pairs
        ensures { result.pairs.items ≡ [] }
    {
        Pairs {
            heads: Vec::new(alloc),
            links: Vec::new(alloc),
            pairs: Vec::new(alloc),
            bytes: 0,
        }
    }

    /// Whether a pair is remembered.
    pub fn holds(&self, hash: u64, high: u32, not_done: &NotDone, object: &Reversible) -> bool
        ensures { IsTrue result →
            HasPair self.now.pairs.items not_done.now.next.items high
            (reversible_content object.now) }
    {
        let first = number_at(&self.heads, slot_of(&self.heads, hash));
        let mut rest = (first as usize).min(self.pairs.len());
        while rest > 0 {
            if is_pair(&self.pairs[rest - 1], hash, high, not_done, object) {
                return true;
            }
            rest = (number_at(&self.links, rest - 1) as usize).min(rest - 1);
        }
        false
    }

    /// Remembers a pair, which takes at most this many bytes.
    pub fn remember(&mut self, alloc: Global, pair: Pair, bytes: usize) -> Result<(), AllocError>
        ensures { OnOk result (self.new.pairs.items ≡ self.old.pairs.items ++ pair ∷ []) }
    {
        if self.pairs.len() >= self.heads.len() {
            self.spread(alloc)?;
        }
        let slot = slot_of(&self.heads, pair.hash);
        let link = number_at(&self.heads, slot);
        self.links.push(link)?;
        self.pairs.push(pair)?;
        self.bytes = self.bytes.saturating_add(bytes);
        let number = self.pairs.len();
        if let Some(head) = self.heads.get_mut(slot)
            && number <= u32::MAX as usize
        {
            *head = number as u32;
        }
        Ok(())
    }

    /// Finds all pairs by twice as many slots.
    fn spread(&mut self, alloc: Global) -> Result<(), AllocError>
        ensures { self.new.pairs ≡ self.old.pairs }
    {
        let slots = self.heads.len().saturating_mul(2).max(64);
        let mut heads = vec![in alloc; 0u32; slots]?;
        let mut links = Vec::new(alloc);
        for k in 0..self.pairs.len() {
            let slot = slot_of(&heads, self.pairs[k].hash);
            links.push(number_at(&heads, slot))?;
            if let Some(head) = heads.get_mut(slot)
                && k < u32::MAX as usize
            {
                *head = k as u32 + 1;
            }
        }
        self.heads = heads;
        self.links = links;
        Ok(())
    }
}
