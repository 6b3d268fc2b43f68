//! Tests of the public calls of `number_map`, `pairing_heap`, `seq_objects` and `events`. They are
//! in a crate of their own, so that each of these libraries is proved once, and not again for its
//! tests.
#![tactic(auto)]

#[cfg(test)]
mod heaps;
#[cfg(test)]
mod number_maps;
#[cfg(test)]
mod objects;
#[cfg(test)]
mod splitting;
