//! Tests of the public calls of `edn`. They are in a crate of their own, so that `edn` is not
//! proved again for its tests.
#![tactic(auto)]

#[cfg(test)]
mod forms;
#[cfg(test)]
mod map_values;
