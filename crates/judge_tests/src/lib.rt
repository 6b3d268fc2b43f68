//! Tests of the public calls of `history`, `certificate`, `checker`, `parallel`, `report`,
//! `reading`, `text_check` and `shards` that no command line reaches: `tests/run` tests the others
//! on the built program. They are in a crate of their own, so that each of these libraries is
//! proved once, and not again for its tests.
#![tactic(auto)]

#[cfg(test)]
mod checking;
#[cfg(test)]
mod dividing;
#[cfg(test)]
mod from_sources;
#[cfg(test)]
mod histories;
#[cfg(test)]
mod judgements;
#[cfg(test)]
mod lines_of_verdicts;
#[cfg(test)]
mod long_histories;
#[cfg(test)]
mod orders;
#[cfg(test)]
mod texts_read;
#[cfg(test)]
mod workers;
