//! The table of a roster, and what the seats at it know.

use atomic_table::{Seat, Shared, Table, TableRule};
use std::alloc::Global;
use std::collections::LinkedList;

/// The word of the head: 0, or 1 and the first listed row.
pub(crate) const HEAD: usize = 0;

/// The next word of row 0: 0, or 1 and the row that follows.
pub(crate) const NEXTS: usize = 1;

/// The mark of row 0: 1 if it is active.
pub(crate) const MARKS: usize = 33;

/// The result of a try to enlist a row.
#[derive(Clone, Copy, Debug, PartialEq, Eq)]
pub enum Enlist {
    /// The row was active before.
    Already,
    Listed,
    /// Another row came first.
    Missed,
}

/// What the owner of a row knows of it.
pub enum RowKnowledge {
    /// It is listed, or it was taken out, or it is asleep.
    Unknown,
    Asleep,
    /// It is marked active and not listed, and this is its next word.
    Awake(u64),
}

/// What a seat knows. No value of it is made.
pub enum ListView {
    /// How many places were made; the rows of the last walk, less those unlinked since; a row that
    /// was taken out and is not marked inactive yet; and the list as each walk found it.
    Walker {
        made: u32,
        left: LinkedList<u32>,
        taken_out: Option<u32>,
        walks: LinkedList<LinkedList<u32>>,
    },
    /// The row, what its owner knows of it, and the result of each try to enlist it.
    Place {
        row: u32,
        own: RowKnowledge,
        tries: LinkedList<Enlist>,
    },
}

pub struct RosterRule;

impl TableRule<u64, ListView, u32> for RosterRule {
    ghost use Rattle.std.specs.Prelude.{[], None};
    ghost use Rattle.publication_list.specs.Rule.{Kept};
    ghost use Rattle.publication_list.specs.declared.list_table.ListView.TheVariants as view;

    ghost holds = { λ k. Kept };

    ghost first = { λ k. view.Walker 0 [] None [] };
}

pub(crate) type ListTable = Table<u64, ListView, u32, RosterRule, Global>;

/// The words of the table, which change in single atomic steps.
pub(crate) type Words = Shared<u64, ListView, u32, RosterRule>;

pub(crate) type ListSeat = Seat<u64, ListView>;
