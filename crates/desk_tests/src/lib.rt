//! Tests of the public calls of `publication_list`, `publication`, `clients`, `machine`,
//! `simulation`, and of `perform`, which no program calls. They are a crate of their own, so that
//! each library is proved once, and not again for its tests.
#![tactic(auto)]

#[cfg(test)]
mod enlisting;
#[cfg(test)]
mod generated;
#[cfg(test)]
mod performing;
#[cfg(test)]
mod schedules;
#[cfg(test)]
mod steps;
#[cfg(test)]
mod workers;
