//! The operations that are not yet in the order, as a linked list.

ghost use Rattle.std.specs.Prelude.{◌≡◌, ◌≢◌, ℕ, ◌+◌, ◌<◌, ◌≤◌, List, [], IfOk, IsTrue};
ghost use Rattle.std.specs.Prelude.{length, get_or};
ghost use Rattle.order_search.specs.Links.{Linked, AreWithin, LeadsThrough, next_with};
ghost use Rattle.order_search.specs.Links.{next_without};
ghost use Rattle.order_search.specs.Links.{before_with, before_without};
ghost use Rattle.order_search.specs.Outcomes.{max_places};

use std::alloc::{AllocError, Global};

/// The places of the operations that are not yet in the order, rising. Slot 0 is before the
/// first of all places, and slot `k + 1` after place `k`. `next` has for each slot the first place
/// after it that is in the list, and `before`, for each place, the slot before it in the list. The
/// place after the last one is the end.
///
/// A place that was taken out keeps what it knows of its neighbours, so that it can be put back:
/// Knuth, "Dancing Links", 2000.
#[derive(Drop)]
pub(crate) struct NotDone {
    pub next: Vec<u32>,
    pub before: Vec<u32>,
}

/// The numbers from 0 to `n`.
fn numbers(alloc: Global, n: u32) -> Result<Vec<u32>, AllocError>
    ensures len { IfOk result (λ v. length v.items ≡ n + 1) }
    ensures each { IfOk result (λ v. (k : ℕ) → k ≤ n → get_or v.items k 0 ≡ k) }
{
    let mut v = Vec::new(alloc);
    for k in 0..n {
        v.push(k)?;
    }
    v.push(n)?;
    Ok(v)
}

impl NotDone {
    /// All places below `n`.
    pub fn all(alloc: Global, n: u32) -> Result<NotDone, AllocError>
        ensures { IfOk result (λ u. Linked n [] u.next.items u.before.items) }
    {
        Ok(NotDone {
            next: numbers(alloc, n)?,
            before: numbers(alloc, n)?,
        })
    }

    /// Takes a place out of the list. What it knows of its neighbours stays.
    pub fn take_out(&mut self, place: u32)
        requires { AreWithin self.old.next.items self.old.before.items place }
        ensures next { self.new.next.items
            ≡ next_without self.old.next.items self.old.before.items place }
        ensures before { self.new.before.items
            ≡ before_without self.old.next.items self.old.before.items place }
    {
        let slot = self.before[place as usize];
        let next = self.next[place as usize + 1];
        self.next[slot as usize] = next;
        self.before[next as usize] = slot;
    }

    /// The place `pending` as it is once `place` is taken out: then it is the next one in the list.
    pub fn pending_after(&self, pending: u32, place: u32) -> u32
        requires { place + 1 < length self.now.next.items }
        ensures same { place ≡ pending → result ≡ get_or self.now.next.items (place + 1) 0 }
        ensures other { place ≢ pending → result ≡ pending }
    {
        if place == pending {
            self.next[place as usize + 1]
        } else {
            pending
        }
    }

    /// Puts back the place that was taken out last.
    pub fn put_back(&mut self, place: u32)
        requires small { place < max_places }
        requires within { AreWithin self.old.next.items self.old.before.items place }
        ensures next { self.new.next.items
            ≡ next_with self.old.next.items self.old.before.items place }
        ensures before { self.new.before.items
            ≡ before_with self.old.next.items self.old.before.items place }
    {
        let slot = self.before[place as usize];
        let next = self.next[place as usize + 1];
        self.next[slot as usize] = place;
        self.before[next as usize] = place + 1;
    }

    /// The places in the list below `high`.
    pub fn below(&self, alloc: Global, high: u32) -> Result<Vec<u32>, AllocError>
        requires { (n : ℕ) × (done : List ℕ)
            × Linked n done self.now.next.items self.now.before.items }
        ensures { IfOk result (λ v. LeadsThrough self.now.next.items 0 v.items high) }
    {
        let mut places = Vec::new(alloc);
        let mut slot = 0;
        loop {
            let place = self.next[slot];
            if high <= place {
                return Ok(places);
            }
            if self.next.len() <= place as usize + 1 {
                return Ok(places);
            }
            places.push(place)?;
            slot = place as usize + 1;
        }
    }

    /// Whether the places in the list below `high` are these.
    pub fn is_below(&self, high: u32, places: &[u32]) -> bool
        ensures { IsTrue result → LeadsThrough self.now.next.items 0 places.now high }
    {
        let mut slot = 0;
        for place in places {
            if self.next.get(slot) != Some(place) {
                return false;
            }
            slot = *place as usize + 1;
        }
        match self.next.get(slot) {
            Some(place) => high <= *place || self.next.len() <= (*place as usize) + 1,
            None => false,
        }
    }
}
