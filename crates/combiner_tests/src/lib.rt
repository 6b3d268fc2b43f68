//! Tests of the public calls of `publication` and `combiner`: a bench has a desk with its clients,
//! and a test says which steps a client takes and what it is to find. They are a crate of their
//! own, so that the libraries are proved once, and not again for their tests.
#![tactic(auto)]

#[cfg(test)]
mod abandoned;
#[cfg(test)]
mod bench;
#[cfg(test)]
mod desks;
#[cfg(test)]
mod drawn_turns;
#[cfg(test)]
mod lines;
#[cfg(test)]
mod listing;
#[cfg(test)]
mod many_rows;
#[cfg(test)]
mod outstanding;
#[cfg(test)]
mod refused;
#[cfg(test)]
mod refusing;
#[cfg(test)]
mod serving;
#[cfg(test)]
mod steps;
#[cfg(test)]
mod waiting;
