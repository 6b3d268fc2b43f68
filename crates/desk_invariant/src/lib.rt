//! The rule of a desk's table: what its words, its slots and what each client knows have to do with
//! the world of flat combining. The rule is in `specs/`, and that each step keeps it is proved in
//! `proofs/`.
#![tactic(auto)]

mod board;

pub use board::{
    BoxedCore, Core, DeskRule, DeskView, Held, Journal, Leaving, Own, Plan, PutBack, Role, Slot,
};
