//! The walk through the beginnings of orders.

ghost use Rattle.std.specs.Prelude.{◌≡◌, ℕ, ◌+◌, ◌<◌, ◌≤◌, ◌⊎◌, List, length, [], Some, None};
ghost use Rattle.std.specs.Prelude.{IsSome, IfSome, IfOk, OnOk, map, reverse, is_some, true, false};
ghost use Rattle.std.specs.Prelude.{if◌then◌else◌, get_or};
ghost use Rattle.model.specs.Objects.{next};
ghost use Rattle.model.specs.Orders.{Return};
ghost use Rattle.events.specs.Operations.{return_of, Agrees};
ghost use Rattle.order_search.specs.Undoing.{reversible_content};
ghost use Rattle.order_search.specs.Arranged.{call_at, no_return};
ghost use Rattle.order_search.specs.Links.{Linked};
ghost use Rattle.order_search.specs.Outcomes.{max_places};
ghost use Rattle.order_search.specs.Searching.{places, content_before, AreTrials, AreOwed, IsLeast};
ghost use Rattle.order_search.specs.Searching.{IsOrder, IsNoOrder, IsDeadHere, IsDeadAtPlace};
ghost use Rattle.order_search.specs.Searching.{IsPairDead};
ghost use Rattle.order_search.specs.Searching.{IsSearching, IsSearchingAt};

use crate::dead::Dead;
use crate::digest::Digest;
use crate::level::{Level, Window};
use crate::not_done::NotDone;
use crate::pairs::Pair;
use crate::trials::Trials;
use crate::{KeptContent, Reversible, Step};
use events::{End, Operation};
use std::alloc::{AllocError, Global};

/// How a walk ends.
#[derive(Clone, Copy)]
pub(crate) enum Ending {
    /// The levels are an order.
    Done,
    Impossible,
    OutOfSteps,
}

/// The number at which the operation returned, if that is the least.
fn earlier(end: &End, least: u32) -> u32
    ensures below { result ≤ least }
    ensures own { (r : Return) → return_of end.now ≡ Some r → result ≤ r.at }
    ensures either { (result ≡ least) ⊎ ((r : Return) × (return_of end.now ≡ Some r)
        × (result ≡ r.at)) }
{
    match end {
        End::Returned { at, .. } if *at < least => *at,
        _ => least,
    }
}

/// The least return of the operations that are not in the order.
fn least_return(trials: &Trials, not_done: &NotDone) -> u32
    requires trials { AreTrials trials.now }
    requires linked { (done : List ℕ)
        × Linked (length trials.now.items.items) done not_done.now.next.items
        not_done.now.before.items }
    ensures { (done : List ℕ) →
        Linked (length trials.now.items.items) done not_done.now.next.items
        not_done.now.before.items →
        IsLeast (length trials.now.items.items) (call_at trials.now.items.items) done result }
{
    let mut least = u32::MAX;
    let mut at = not_done.next[0] as usize;
    while at < trials.items.len() && trials.return_floors[at] <= least {
        least = earlier(&trials.items[at].end, least);
        at = not_done.next[at + 1] as usize;
    }
    least
}

/// How many returned operations are still missing once this one is in the order.
fn owed_after(left: usize, end: &End) -> usize
    requires { 0 < left }
    ensures { left ≡ (if is_some (return_of end.now) then result + 1 else result) }
{
    if end.has_returned() { left - 1 } else { left }
}

/// How many returned operations are missing once this one is out of the order again.
fn owed_before(left: usize, end: &End) -> usize
    requires { left ≤ max_places }
    ensures { result ≡ (if is_some (return_of end.now) then left + 1 else left) }
{
    if end.has_returned() { left + 1 } else { left }
}

/// A pair that lists all operations that are still to return is remembered only if these are at
/// most this many.
const MOST_LISTED: usize = 4096;

/// The state of a search: the order that has begun, and the place that is looked at next.
#[derive(Drop)]
pub(crate) struct State {
    pub levels: Vec<Level>,
    pub object: Reversible,
    pub not_done: NotDone,
    pub dead: Dead,
    pub digest: Digest,
    /// It is above all places in the order.
    pub high: u32,
    pub at: u32,
    /// What can come next.
    pub window: Window,
    /// How many operations returned and are not in the order.
    pub left: usize,
}

impl State {
    /// Before the first step, with an object that is empty.
    pub fn begin(alloc: Global, trials: &Trials, left: usize) -> Result<State, AllocError>
        requires trials { AreTrials trials.now }
        requires counts { AreOwed trials.now left }
        requires owed { 0 < left }
        ensures search { IfOk result (λ s. IsSearching trials.now s) }
        ensures levels { IfOk result (λ s. s.levels.items ≡ []) }
    {
        let not_done = NotDone::all(alloc, trials.items.len() as u32)?;
        let least = least_return(trials, &not_done);
        let pending = trials.pending;
        let at = not_done.next[0];
        let object = Reversible::empty(alloc, trials.kind);
        let dead = Dead::new(alloc, &object, &trials.items)?;
        Ok(State {
            levels: Vec::new(alloc),
            object,
            not_done,
            dead,
            digest: Digest::new(),
            high: 0,
            at,
            window: Window { least, pending },
            left,
        })
    }

    /// Goes on to the next place.
    fn pass(&mut self, trials: &Trials)
        requires trials { AreTrials trials.now }
        requires search { IsSearching trials.now self.old }
        requires at { self.old.at < length trials.now.items.items }
        requires dead_at { IsDeadAtPlace trials.now self.old self.old.at }
        ensures search { IsSearching trials.now self.new }
        ensures rises { self.old.at < self.new.at }
        ensures levels { self.new.levels ≡ self.old.levels }
    {
        // The trials are there for the contract alone.
        let _ = trials;
        self.at = self.not_done.next[self.at as usize + 1];
    }

    /// Goes on to the first pending place, if all others that come before it were invoked too
    /// late.
    fn skip(&mut self, trials: &Trials)
        requires trials { AreTrials trials.now }
        requires search { IsSearching trials.now self.old }
        requires before { self.old.at < self.old.window.pending }
        requires small { self.old.window.least < no_return }
        requires late { self.old.window.least
            < get_or trials.now.return_floors.items self.old.at 0 }
        ensures search { IsSearching trials.now self.new }
        ensures rises { self.old.at < self.new.at }
        ensures levels { self.new.levels ≡ self.old.levels }
    {
        // The trials are there for the contract alone.
        let _ = trials;
        self.at = self.window.pending;
    }

    /// Puts the operation, which was done, into the order, if that leads to no pair that is dead;
    /// else undoes it. Returns whether the order is done.
    fn go_on(&mut self, trials: &Trials, step: Step) -> Result<bool, AllocError>
        requires trials { AreTrials trials.now }
        requires search { IsSearchingAt trials.now self.old (content_before self.old step) }
        requires at { self.old.at < length trials.now.items.items }
        requires in_time { (call_at trials.now.items.items self.old.at).number
            ≤ self.old.window.least }
        requires does { next (content_before self.old step)
            (call_at trials.now.items.items self.old.at).op
            ≡ Some (reversible_content self.old.object, step.reply) }
        requires agrees { Agrees (call_at trials.now.items.items self.old.at).returned step.reply }
        ensures search { IfOk result (λ over. over ≡ false → IsSearching trials.now self.new) }
        ensures over { IfOk result (λ over. over ≡ true →
            IsOrder trials.now (places self.new.levels.items)) }
        ensures deep { length self.new.levels.items ≤ length self.old.levels.items + 1 }
    {
        let place = self.at;
        let item = &trials.items[place as usize];
        let done = self.digest.with_done(place);
        let digest = self.object.digest(done, &item.op, &step);
        let high = self.high.max(place + 1);
        let pending = self.not_done.pending_after(self.window.pending, place);
        self.not_done.take_out(place);
        if self
            .dead
            .holds(digest.hash(), high, &self.not_done, &self.object)
        {
            self.not_done.put_back(place);
            self.object.undo(step.undo)?;
            self.pass(trials);
            return Ok(false);
        }
        self.levels.push(Level {
            place,
            undo: step.undo,
            window: self.window,
            high: self.high,
            digest: self.digest,
        })?;
        self.left = owed_after(self.left, &item.end);
        if self.left == 0 {
            return Ok(true);
        }
        self.digest = digest;
        self.high = high;
        let least = least_return(trials, &self.not_done);
        self.window = Window { least, pending };
        self.at = self.not_done.next[0];
        Ok(false)
    }

    /// Tries the operation that is looked at. Returns whether the order is done.
    fn attempt(&mut self, trials: &Trials) -> Result<bool, AllocError>
        requires trials { AreTrials trials.now }
        requires search { IsSearching trials.now self.old }
        requires at { self.old.at < length trials.now.items.items }
        requires in_time { (call_at trials.now.items.items self.old.at).number
            ≤ self.old.window.least }
        requires possible { IsSome
            (next (reversible_content self.old.object)
            (call_at trials.now.items.items self.old.at).op) }
        ensures search { IfOk result (λ over. over ≡ false → IsSearching trials.now self.new) }
        ensures over { IfOk result (λ over. over ≡ true →
            IsOrder trials.now (places self.new.levels.items)) }
        ensures deep { length self.new.levels.items ≤ length self.old.levels.items + 1 }
    {
        let item = &trials.items[self.at as usize];
        let step = self.object.apply(&item.op)?;
        if item.end.differs(step.reply) {
            self.object.undo(step.undo)?;
            self.pass(trials);
            return Ok(false);
        }
        self.go_on(trials, step)
    }

    /// The pair at which the search is, if it lists few operations. Once a pending one is in
    /// the order, all that are to return are listed.
    fn pair_here(&self, alloc: Global, trials: &Trials) -> Result<Option<Pair>, AllocError>
        requires trials { AreTrials trials.now }
        requires search { IsSearching trials.now self.now }
        requires dead_here { IsDeadHere trials.now self.now }
        ensures { IfOk result (λ o. IfSome o (IsPairDead trials.now)) }
    {
        if self.high > trials.pending && self.left > MOST_LISTED {
            return Ok(None);
        }
        Ok(Some(Pair {
            hash: self.digest.hash(),
            high: self.high,
            not_done: self.not_done.below(alloc, self.high)?,
            content: KeptContent::of(alloc, &self.object)?,
        }))
    }

    /// Remembers that the pair is dead, and goes back to the level before. Returns whether there
    /// is one.
    fn come_back(&mut self, alloc: Global, trials: &Trials) -> Result<bool, AllocError>
        requires trials { AreTrials trials.now }
        requires search { IsSearching trials.now self.old }
        requires dead_here { IsDeadHere trials.now self.old }
        ensures search { IfOk result (λ more. more ≡ true → IsSearching trials.now self.new) }
        ensures none { IfOk result (λ more. more ≡ false → IsNoOrder trials.now) }
        ensures back { IfOk result (λ more. more ≡ true →
            length self.old.levels.items ≡ length self.new.levels.items + 1) }
    {
        let pair = self.pair_here(alloc, trials)?;
        let Some(level) = self.levels.pop() else {
            return Ok(false);
        };
        self.dead.remember_if_some(alloc, pair)?;
        self.object.undo(level.undo)?;
        self.not_done.put_back(level.place);
        self.left = owed_before(self.left, &trials.items[level.place as usize].end);
        self.digest = level.digest;
        self.high = level.high;
        self.window = level.window;
        self.at = self.not_done.next[level.place as usize + 1];
        Ok(true)
    }

    /// Extends orders depth first until one is complete or none remains. A step is one operation
    /// tried.
    pub fn run(
        &mut self,
        alloc: Global,
        trials: &Trials,
        limit: u64,
        steps: &mut u64,
    ) -> Result<Ending, AllocError>
        requires trials { AreTrials trials.now }
        requires search { IsSearching trials.now self.old }
        requires none { self.old.levels.items ≡ [] }
        requires steps { steps.old ≤ limit }
        ensures steps { steps.new ≤ limit }
        ensures over { IfOk result (λ e. e ≡ Ending.Done →
            IsOrder trials.now (places self.new.levels.items)) }
        ensures impossible { IfOk result (λ e. e ≡ Ending.Impossible → IsNoOrder trials.now) }
        ensures out { IfOk result (λ e. e ≡ Ending.OutOfSteps → steps.new ≡ limit) }
    {
        loop {
            let at = self.at as usize;
            if at >= trials.items.len() || trials.floors[at] > self.window.least {
                if !self.come_back(alloc, trials)? {
                    return Ok(Ending::Impossible);
                }
                continue;
            }
            if self.at < self.window.pending && trials.return_floors[at] > self.window.least {
                self.skip(trials);
                continue;
            }
            let item = &trials.items[at];
            if item.number > self.window.least || !self.object.is_possible(&item.op) {
                self.pass(trials);
                continue;
            }
            if *steps == limit {
                return Ok(Ending::OutOfSteps);
            }
            *steps += 1;
            if self.attempt(trials)? {
                return Ok(Ending::Done);
            }
        }
    }
}
