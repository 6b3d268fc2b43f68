//! Where text comes from.

ghost use Rattle.std.specs.Prelude.{◌≡◌, ◌≤◌, ℕ, List, Bool, true, false, length, take, ⊤, Option};
ghost use Rattle.std.specs.Prelude.{Result, IfOk, OnOk, OnErr};
ghost use Rattle.std.specs.Io.KnownBytes.{Keeps};
ghost use Rattle.std.specs.declared.io.ErrorKind.{ErrorKind};
ghost use Rattle.edn.specs.Given.{GivesBytes};

use crate::sink::Failed;
use std::io::{ErrorKind, Read};

/// A device that gives bytes in pieces, until it ends or fails. Each call asks that it has not
/// failed.
pub trait Source {
    /// The bytes that will be given from here on, if they are known.
    ghost remaining: { Self → Option (List ℕ) };
    /// Whether it failed.
    ghost broken: { Self → Bool };
    /// What it means that a call for a buffer of this length fails, with what it leaves.
    ghost refuses: { Self → ℕ → Self → Type 0 };

    /// Puts bytes at the beginning of the buffer, and says how many they are. If it puts 0 bytes
    /// into a buffer that is not empty, the source is at its end.
    fn get(&mut self, buf: &mut [u8]) -> Result<usize, Failed>
        requires { broken self.old ≡ false }
        ensures within { IfOk result (λ n. n ≤ length buf.new) }
        ensures gives { IfOk result (GivesBytes (remaining self.old) (remaining self.new) buf.new) }
        ensures usable { OnOk result (broken self.new ≡ false) }
        ensures failed { OnErr result (broken self.new ≡ true) }
        // A call that fails gives nothing.
        ensures keeps { OnErr result (Keeps (remaining self.old) (remaining self.new)) }
        ensures refused { OnErr result (refuses self.old (length buf.old) self.new) };

    fn has_failed(&self) -> bool
        ensures { result ≡ broken self.now };
}

/// What gives bytes: each call gives some, or none, or fails. Each reader is one.
pub trait Supply {
    /// The bytes that will be given from here on, if they are known.
    ghost contents: { Self → Option (List ℕ) };
    /// What a call for a buffer of this length may answer, and what it leaves.
    ghost answers: { Self → ℕ → Result ℕ ErrorKind → Self → Type 0 };

    /// How many bytes it put at the beginning of the buffer, or with which kind of error it failed.
    fn give(&mut self, buf: &mut [u8]) -> Result<usize, ErrorKind>
        ensures answered { answers self.old (length buf.old) result self.new }
        ensures within { IfOk result (λ n. n ≤ length buf.new) }
        ensures given { IfOk result (GivesBytes (contents self.old) (contents self.new) buf.new) }
        ensures keeps { OnErr result (Keeps (contents self.old) (contents self.new)) };
}

impl<R: Read> Supply for R {
    ghost contents = { λ r. R.remaining r };

    // Of a reader nothing else is known.
    ghost answers = { λ _ _ _ _. ⊤ };

    fn give(&mut self, buf: &mut [u8]) -> Result<usize, ErrorKind> {
        match self.read(buf) {
            Ok(n) => Ok(n),
            Err(error) => Err(error.kind()),
        }
    }
}

/// A source over a supply. A call that fails is a failure, and is not tried again.
#[derive(Drop)]
pub struct In<D: Supply + Drop> {
    supply: D,
    failure: Option<ErrorKind>,
}

impl<D: Supply + Drop> In<D> {
    ghost use Rattle.edn.specs.Ins.{has_failed_in, failure_in, is_allocation_failure};
    ghost use Rattle.edn.specs.Ins.{supply_of};

    pub fn new(supply: D) -> In<D>
        ensures usable { has_failed_in result ≡ false }
        ensures over { supply_of result ≡ supply }
    {
        In {
            supply,
            failure: None,
        }
    }

    /// Whether it failed by an allocation failure.
    pub fn is_allocation_failure(&self) -> bool
        ensures { result ≡ is_allocation_failure (failure_in self.now) }
    {
        matches!(self.failure, Some(ErrorKind::OutOfMemory))
    }

    /// Returns the supply.
    pub fn into_inner(self) -> D
        ensures { result ≡ supply_of self }
    {
        let In { supply, failure: _ } = self;
        supply
    }
}

impl<D: Supply + Drop> Source for In<D> {
    ghost use Rattle.edn.specs.Ins.{has_failed_in, supply_of, IsFailedRead};

    ghost remaining = { λ s. D.contents (supply_of s) };

    ghost broken = { λ s. has_failed_in s };

    ghost refuses = { λ s n t. IsFailedRead D.answers s n t };

    fn get(&mut self, buf: &mut [u8]) -> Result<usize, Failed> {
        match self.supply.give(buf) {
            Ok(given) => Ok(given),
            Err(kind) => {
                self.failure = Some(kind);
                Err(Failed)
            }
        }
    }

    fn has_failed(&self) -> bool {
        self.failure.is_some()
    }
}
