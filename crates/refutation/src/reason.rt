//! Reasons why no order of an object's operations is valid. They need not be true:
//! [`refute`](crate::refute) checks them.

ghost use Rattle.std.specs.Prelude.{◌≡◌};

use cuts::{Count, Cut};
use order_search::TryFirst;

/// How the orders of a part are searched: which operation is tried first, and how many steps the
/// search may take at most. Without a number the caller of the check says how many.
#[derive(Clone, Copy, Debug, PartialEq, Eq)]
pub struct Trial {
    pub first: TryFirst,
    pub steps: Option<u32>,
}

/// What is to show that no order of a part is valid.
#[derive(Clone, Copy, Debug, PartialEq, Eq)]
pub enum Basis {
    /// The search for an order of the part.
    Search(Trial),
    /// A count over the part of how often a content was set and taken away: see
    /// [`cuts::is_overdrawn`].
    Counting(Count),
    /// A count over the part of the values that definitely were ahead of what the removal with this
    /// number found, by puts that were invoked at the number `from` or later: see
    /// [`cuts::is_blocked`].
    Ahead { number: u32, from: u32 },
}

impl Basis {
    ghost use Rattle.refutation.specs.Refutations.{steps_of};

    /// How many steps a search may take: `limit` if the reason names no number.
    pub fn steps(self, limit: u64) -> u64
        ensures { result ≡ steps_of self limit }
    {
        match self {
            Basis::Search(
                Trial {
                    first: _,
                    steps: Some(steps),
                },
            ) => u64::from(steps),
            _ => limit,
        }
    }
}

/// The object, the cuts that make the part, one after another, and what is to show that the part
/// has no valid order.
#[derive(Drop)]
pub struct Reason {
    pub object: u32,
    pub cuts: Vec<Cut>,
    pub basis: Basis,
}
